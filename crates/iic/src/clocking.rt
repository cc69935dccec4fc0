// What each of the four waits brings when it fires.
ghost use Rattle.std.specs.Prelude.{◌≡◌, None, true};
ghost use Rattle.iic.specs.Answers.{Stepped, fine};
ghost use Rattle.iic.specs.Clocking.{clock_step_of, filter_fires_of, firing, monitor_step_of, stretch_of, toggle_of};
ghost use Rattle.iic.specs.Inside.{due_after};
ghost use Rattle.iic.specs.Over.{fired_by};
ghost use Rattle.iic.specs.Setters.{set_clock_wait, set_monitor_wait, set_setup_wait, set_synchronized_hold};
ghost use Rattle.iic.specs.State.{drive_scl};
ghost use Rattle.waits.specs.Ends.{due_of};
ghost use Rattle.iic.specs.declared.Iic.{Iic};

use super::{Answered, Condition, Deadline, Ends, Iic, Stepped};
use domain::Domain;
use refusals::Refusal;
use time::Time;
use waits::ends::{acts, due, half_end};

impl Iic {
    // A rising clock is looked at after the monitor's wait, a falling one is not.
    #[tactic(auto, unfolding(crate::specs::Clocking::monitor_step_of))]
    fn monitor_step(mut self, now: Time, system: Domain) -> Stepped
        ensures { result ≡ monitor_step_of now system self }
    {
        if self.lines.drive.scl {
            return self.start_monitor(now, system);
        }
        self.monitor_wait = None;
        self.fine()
    }

    #[tactic(auto, unfolding(crate::specs::Clocking::toggle_of))]
    fn toggle(mut self, now: Time, system: Domain) -> Stepped
        ensures { result ≡ toggle_of now system self }
    {
        if self.master() & !self.held() {
            self.lines.drive.scl = !self.lines.drive.scl;
            return self
                .start_clock(now, system)
                .and_then(|s| s.monitor_step(now, system));
        }
        self.fine()
    }

    // The clock's wait has ended.
    #[tactic(auto, unfolding(crate::specs::Clocking::clock_step_of))]
    fn clock_step(self, now: Time, system: Domain) -> Stepped
        ensures { result ≡ clock_step_of now system self }
    {
        if !self.conditioned() {
            return self.toggle(now, system);
        }
        // SCL is about to fall for a start.
        if self.condition == Condition::StartHold {
            return self.clock_condition().start_clock(now, system);
        }
        self.clock_condition().fine()
    }

    #[tactic(auto, unfolding(crate::specs::Clocking::filter_fires_of))]
    #[inline(never)]
    fn filter_fires(mut self, now: Time, system: Domain) -> Stepped
        ensures { result ≡ filter_fires_of now system self }
    {
        let old = self.lines.filtered;
        self = self.filter_pass();
        self.filter_wait = None;
        let next = if self.edged(old) {
            self.filtered_edges(old, now, system)
        } else {
            self.fine()
        };
        next.schedule_filter(now, system)
    }

    // SCL is still low though released: the clock's wait pauses.
    #[tactic(auto, unfolding(crate::specs::Clocking::stretch_of))]
    fn stretch(self, now: Time, system: Domain) -> Stepped
        ensures { result ≡ stretch_of now system self }
    {
        if self.lines.filtered.scl {
            return self.fine();
        }
        self.turn_clock(false, now, system)
            .and_then(|s| s.paused_by_stretch().fine())
    }

    fn paused_by_stretch(mut self) -> Iic
        ensures { result ≡ set_synchronized_hold true self }
    {
        self.flags.synchronized_hold = true;
        self
    }
}

// What a wait brings where it is due; a refused time refuses the visit.
impl Iic {
    // A step where a wait is due.
    fn firing<F: FnOnce(Iic) -> Stepped>(self, ends: Result<bool, Refusal>, step: F) -> Stepped
        requires { F.IsAlwaysCallable step }
        ensures { (f : Iic → Stepped) → ((s : Iic) (r : Stepped) → F.post step s r → r ≡ f s) → result ≡ firing ends self (f self) }
    {
        match ends {
            Ok(true) => step(self),
            Ok(false) => self.fine(),
            Err(refusal) => self.refused(refusal),
        }
    }

    pub(crate) fn fire_filter(
        self,
        ends: Result<bool, Refusal>,
        now: Time,
        system: Domain,
    ) -> Stepped
        ensures { result ≡ firing ends self (filter_fires_of now system self) }
    {
        self.firing(ends, |s| s.filter_fires(now, system))
    }

    // A slave releases SCL.
    fn release_scl(mut self) -> Iic
        ensures { result ≡ set_setup_wait None (drive_scl true self) }
    {
        self.lines.drive.scl = true;
        self.setup_wait = None;
        self
    }

    pub(crate) fn fire_setup(self, ends: Result<bool, Refusal>) -> Stepped
        ensures { result ≡ firing ends self (fine (set_setup_wait None (drive_scl true self))) }
    {
        self.firing(ends, |s| s.release_scl().fine())
    }

    #[inline(never)]
    fn monitor_fires(mut self, now: Time, system: Domain) -> Stepped
        ensures { result ≡ stretch_of now system (set_monitor_wait None self) }
    {
        self.monitor_wait = None;
        self.stretch(now, system)
    }

    pub(crate) fn fire_monitor(
        self,
        ends: Result<bool, Refusal>,
        now: Time,
        system: Domain,
    ) -> Stepped
        ensures { result ≡ firing ends self (stretch_of now system (set_monitor_wait None self)) }
    {
        self.firing(ends, |s| s.monitor_fires(now, system))
    }

    #[inline(never)]
    fn clock_fires(mut self, now: Time, system: Domain) -> Stepped
        ensures { result ≡ clock_step_of now system (set_clock_wait None self) }
    {
        self.clock_wait = None;
        self.clock_step(now, system)
    }

    pub(crate) fn fire_clock(
        self,
        ends: Result<bool, Refusal>,
        now: Time,
        system: Domain,
    ) -> Stepped
        ensures { result ≡ firing ends self (clock_step_of now system (set_clock_wait None self)) }
    {
        self.firing(ends, |s| s.clock_fires(now, system))
    }
}

impl Answered<()> {
    // Whether a time is now; nothing is due after a refusal.
    fn due(self, end: Deadline, now: Time) -> Result<bool, Refusal>
        ensures { result ≡ due_after self.answer (due_of end now) }
    {
        if self.went_on() {
            return due(end, now);
        }
        Ok(false)
    }

    // The four waits in their order, each looked at after the one before has acted, and then what is due. Each is tested before the state goes to its
    // step: a visit at which nothing is due, of which a trace has most, copies no state. What a wait brings is never
    // inlined here, since the room for it would be cleared at each visit.
    #[tactic(auto, unfolding(crate::specs::Clocking::fire_clock_of, crate::specs::Clocking::fire_filter_of, crate::specs::Clocking::fire_monitor_of, crate::specs::Clocking::fire_setup_of))]
    pub(crate) fn visit(mut self, ends: Ends, now: Time, system: Domain) -> Stepped
        ensures { result ≡ fired_by ends now system self }
    {
        let filter = self.due(ends.filter, now);
        if acts(filter) {
            self = self.state.fire_filter(filter, now, system);
        }
        let setup = self.due(ends.setup, now);
        if acts(setup) {
            self = self.state.fire_setup(setup);
        }
        let monitor = self.due(half_end(self.state.monitor_wait, system), now);
        if acts(monitor) {
            self = self.state.fire_monitor(monitor, now, system);
        }
        let clock = self.due(half_end(self.state.clock_wait, system), now);
        if acts(clock) {
            self = self.state.fire_clock(clock, now, system);
        }
        self.kick(now, system)
    }
}
