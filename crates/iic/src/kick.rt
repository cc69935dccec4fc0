// The step that starts what is due: a condition, a frame, a clock; and the end of a hold.
ghost use Rattle.std.specs.Prelude.{◌≡◌, ◌&&◌, false, not};
ghost use Rattle.iic.specs.Answers.{and_then};
ghost use Rattle.iic.specs.Inside.{went_on};
ghost use Rattle.iic.specs.Kick.{begin_condition_of, clock_frame_of, kick_of, release_hold_of};
ghost use Rattle.iic.specs.Settled.{settled};

use super::{Answered, Hold, Iic, Stepped};
use domain::Domain;
use time::Time;

impl Iic {
    #[tactic(auto, unfolding(crate::specs::Kick::begin_condition_of))]
    fn begin_condition(self, now: Time, system: Domain) -> Stepped
        ensures { result ≡ begin_condition_of now system self }
    {
        let Some(start) = self.command else {
            return self.fine();
        };
        self.begun(start).start_clock(now, system)
    }

    // SCL goes low for the next bit of a frame, or is held until there is a byte.
    #[tactic(auto, unfolding(crate::specs::Kick::clock_frame_of, crate::specs::Kick::launch_of))]
    fn clock_frame(self, now: Time, system: Domain) -> Stepped
        ensures { result ≡ clock_frame_of now system self }
    {
        let Some(f) = self.frame else {
            return self.fine();
        };
        if !self.clock_due() {
            return self.fine();
        }
        if f.phase.is_done() {
            return self.fine();
        }
        if f.starved() {
            return self.set_hold(Hold::Transmit).fine();
        }
        self.low_half(self.level(f)).start_clock(now, system)
    }

    // What is due, on a state that isn't settled; never inlined, so that a call at which nothing is due doesn't pay for its locals.
    #[inline(never)]
    #[tactic(auto, unfolding(crate::specs::Kick::kick_of))]
    pub(crate) fn start_due(self, now: Time, system: Domain) -> Stepped
        requires { settled self ≡ false }
        ensures { result ≡ kick_of now system self }
    {
        if self.command_ready() {
            return self.begin_condition(now, system);
        }
        self.next_frame().load_transmit().clock_frame(now, system)
    }

    // A register was served: SCL goes on after a wait.
    #[tactic(auto, unfolding(crate::specs::Kick::release_hold_of, crate::specs::Kick::wait_after_hold_of))]
    pub(crate) fn release_hold(mut self, now: Time, system: Domain) -> Stepped
        ensures { result ≡ release_hold_of now system self }
    {
        self.hold = Hold::NoHold;
        let next = if self.master() {
            self.start_clock(now, system)
        } else {
            self.start_setup(now, system)
        };
        next.and_then(|s| s.show().fine())
    }
}

// After a step, and tested in the caller before the state is handed on: mostly nothing is due.
impl Answered<()> {
    // Whether something is due, and nothing was refused.
    fn kicks(self) -> bool
        ensures { result ≡ (went_on self.answer && not (settled self.state)) }
    {
        self.went_on() & !self.state.settled()
    }

    // Starts what is due.
    #[inline(always)]
    pub(crate) fn kick(mut self, now: Time, system: Domain) -> Stepped
        ensures { result ≡ and_then self (kick_of now system) }
    {
        if self.kicks() {
            self = self.state.start_due(now, system);
        }
        self
    }
}
