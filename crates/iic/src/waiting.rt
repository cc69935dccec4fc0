// How the four waits of a state start, pause and resume.
ghost use Rattle.std.specs.Prelude.{◌&&◌, ◌≡◌, Option, Some};
ghost use Rattle.iic.specs.Answers.{Stepped, and_then};
ghost use Rattle.iic.specs.Inside.{went_on};
ghost use Rattle.iic.specs.Waiting.{at_wait, clock_from, filter_from, monitor_from, schedule_filter_of, setup_from, start_clock_of, start_filter_of, start_monitor_of, start_setup_of, turn_clock_of, turn_filter_of, turn_monitor_of, turn_setup_of, wait_from, wants_filter};
ghost use Rattle.iic.specs.declared.Iic.{Iic};

use super::{Answered, Iic, Stepped};
use clocks::Clocks;
use clocks::wait::ClockWait;
use domain::Domain;
use refusals::Refusal;
use time::Time;
use waits::HalfWait;
use waits::ends::{turn_half, turn_wait};

impl Iic {
    // A wait that was made is set in the state, a refused one leaves the state as it is at this point.
    fn wait_from<W, F: FnOnce(Iic, W) -> Iic>(self, made: Result<W, Refusal>, set: F) -> Stepped
        requires { F.IsAlwaysCallable set }
        ensures { (f : Option W → Iic → Iic) → ((s : Iic) (w : W) (r : Iic) → F.post set s w r → r ≡ f (Some w) s) → result ≡ wait_from f made self }
    {
        match made {
            Ok(wait) => set(self, wait).fine(),
            Err(refusal) => self.refused(refusal),
        }
    }

    pub(crate) fn clock_from(self, made: Result<HalfWait, Refusal>) -> Stepped
        ensures { result ≡ clock_from made self }
    {
        self.wait_from(
            made,
            |s, w| Iic {
                clock_wait: Some(w),
                ..s
            },
        )
    }

    fn monitor_from(self, made: Result<HalfWait, Refusal>) -> Stepped
        ensures { result ≡ monitor_from made self }
    {
        self.wait_from(
            made,
            |s, w| Iic {
                monitor_wait: Some(w),
                ..s
            },
        )
    }

    // Always inlined: a call of it copies the state twice.
    #[inline(always)]
    fn filter_from(self, made: Result<ClockWait, Refusal>) -> Stepped
        ensures { result ≡ filter_from made self }
    {
        self.wait_from(
            made,
            |s, w| Iic {
                filter_wait: Some(w),
                ..s
            },
        )
    }

    fn setup_from(self, made: Result<ClockWait, Refusal>) -> Stepped
        ensures { result ≡ setup_from made self }
    {
        self.wait_from(
            made,
            |s, w| Iic {
                setup_wait: Some(w),
                ..s
            },
        )
    }

    // The clock's wait starts, or the state stays as it is at this point.
    #[tactic(auto, unfolding(crate::specs::Waiting::start_clock_of))]
    pub(crate) fn start_clock(self, now: Time, system: Domain) -> Stepped
        ensures { result ≡ start_clock_of now system self }
    {
        let halves = self.rates.period(self.registers.control) as u64;
        self.clock_from(HalfWait::after(now, halves, system))
    }

    // The monitor's wait starts.
    #[tactic(auto, unfolding(crate::specs::Waiting::start_monitor_of))]
    pub(crate) fn start_monitor(self, now: Time, system: Domain) -> Stepped
        ensures { result ≡ start_monitor_of now system self }
    {
        let halves = self.rates.monitor_halves(self.registers.control) as u64;
        self.monitor_from(HalfWait::after(now, halves, system))
    }

    // The setup's wait starts.
    #[tactic(auto, unfolding(crate::specs::Waiting::start_setup_of))]
    pub(crate) fn start_setup(self, now: Time, system: Domain) -> Stepped
        ensures { result ≡ start_setup_of now system self }
    {
        let cycles = self.rates.setup_cycles(self.registers.control) as u64;
        self.setup_from(ClockWait::system_after(now, cycles, system))
    }

    // The filter's wait starts; never inlined, so that levels that want none don't pay for its locals.
    #[inline(never)]
    pub(crate) fn start_filter(self, now: Time, system: Domain) -> Stepped
        ensures { result ≡ start_filter_of now system self }
    {
        self.filter_from(ClockWait::system_after(now, 1, system))
    }

    // A level is still on its way through the filter, and nothing waits for it.
    pub(crate) fn wants_filter(self) -> bool
        ensures { result ≡ wants_filter self }
    {
        self.awake() & self.filter_wait.is_none() & self.unsettled()
    }

    // A step of a wait, where there is one.
    pub(crate) fn at_wait<W, F: FnOnce(Iic, W) -> Stepped>(
        self,
        wait: Option<W>,
        step: F,
    ) -> Stepped
        requires { F.IsAlwaysCallable step }
        ensures { (f : W → Iic → Stepped) → ((s : Iic) (w : W) (r : Stepped) → F.post step s w r → r ≡ f w s) → result ≡ at_wait wait f self }
    {
        match wait {
            Some(w) => step(self, w),
            None => self.fine(),
        }
    }

    // The clock's wait resumes (true) or pauses (false); never inlined, since several steps call it.
    #[inline(never)]
    #[tactic(auto, unfolding(crate::specs::Waiting::turn_clock_of))]
    pub(crate) fn turn_clock(self, gate: bool, now: Time, system: Domain) -> Stepped
        ensures { result ≡ turn_clock_of gate now system self }
    {
        self.at_wait(
            self.clock_wait,
            |s, w| s.clock_from(turn_half(gate, now, system, w)),
        )
    }

    #[tactic(auto, unfolding(crate::specs::Waiting::turn_monitor_of))]
    pub(crate) fn turn_monitor(self, gate: bool, now: Time, system: Domain) -> Stepped
        ensures { result ≡ turn_monitor_of gate now system self }
    {
        self.at_wait(
            self.monitor_wait,
            |s, w| s.monitor_from(turn_half(gate, now, system, w)),
        )
    }

    #[tactic(auto, unfolding(crate::specs::Waiting::turn_filter_of))]
    pub(crate) fn turn_filter(self, gate: bool, now: Time, clocks: Clocks) -> Stepped
        ensures { result ≡ turn_filter_of gate now clocks self }
    {
        self.at_wait(
            self.filter_wait,
            |s, w| s.filter_from(turn_wait(gate, now, clocks, w)),
        )
    }

    #[tactic(auto, unfolding(crate::specs::Waiting::turn_setup_of))]
    pub(crate) fn turn_setup(self, gate: bool, now: Time, clocks: Clocks) -> Stepped
        ensures { result ≡ turn_setup_of gate now clocks self }
    {
        self.at_wait(
            self.setup_wait,
            |s, w| s.setup_from(turn_wait(gate, now, clocks, w)),
        )
    }
}

// After a step, and tested before the state is handed on: mostly there is no such wait, or none is wanted. As closures of `and_then` these would copy the
// state at each step.
impl Answered<()> {
    // Whether a filter's wait is wanted, and nothing was refused.
    fn wants_filter(self) -> bool
        ensures { result ≡ (went_on self.answer && wants_filter self.state) }
    {
        self.went_on() & self.state.wants_filter()
    }

    // The filter's wait starts where it is wanted.
    #[inline(always)]
    pub(crate) fn schedule_filter(mut self, now: Time, system: Domain) -> Stepped
        ensures { result ≡ and_then self (schedule_filter_of now system) }
    {
        if self.wants_filter() {
            self = self.state.start_filter(now, system);
        }
        self
    }

    #[tactic(auto, unfolding(crate::specs::Waiting::turn_clock_of))]
    pub(crate) fn turn_clock(mut self, gate: bool, now: Time, system: Domain) -> Stepped
        ensures { result ≡ and_then self (turn_clock_of gate now system) }
    {
        if self.went_on() & self.state.clock_wait.is_some() {
            self = self.state.turn_clock(gate, now, system);
        }
        self
    }

    #[tactic(auto, unfolding(crate::specs::Waiting::turn_monitor_of))]
    pub(crate) fn turn_monitor(mut self, gate: bool, now: Time, system: Domain) -> Stepped
        ensures { result ≡ and_then self (turn_monitor_of gate now system) }
    {
        if self.went_on() & self.state.monitor_wait.is_some() {
            self = self.state.turn_monitor(gate, now, system);
        }
        self
    }

    #[tactic(auto, unfolding(crate::specs::Waiting::turn_filter_of))]
    pub(crate) fn turn_filter(mut self, gate: bool, now: Time, clocks: Clocks) -> Stepped
        ensures { result ≡ and_then self (turn_filter_of gate now clocks) }
    {
        if self.went_on() & self.state.filter_wait.is_some() {
            self = self.state.turn_filter(gate, now, clocks);
        }
        self
    }

    #[tactic(auto, unfolding(crate::specs::Waiting::turn_setup_of))]
    pub(crate) fn turn_setup(mut self, gate: bool, now: Time, clocks: Clocks) -> Stepped
        ensures { result ≡ and_then self (turn_setup_of gate now clocks) }
    {
        if self.went_on() & self.state.setup_wait.is_some() {
            self = self.state.turn_setup(gate, now, clocks);
        }
        self
    }
}
