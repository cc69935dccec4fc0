// Starts and stops: those of the bus, and those that the master makes.
ghost use Rattle.std.specs.Prelude.{◌≡◌};
ghost use Rattle.iic.specs.Conditions.{at_stop, begun_of, bus_edge_of, bus_start_of, bus_stop_of, clocked_of, condition_high, first_condition, raised_of, release_sda_of};

use super::{Condition, Hold, Iic};
use bus::Levels;
use registers::bits::{MST, STOP};

fn first_condition(start: bool) -> Condition
    ensures { result ≡ first_condition start }
{
    if start {
        Condition::StartRelease
    } else {
        Condition::StopLow
    }
}

impl Iic {
    // The state as a start or stop condition begins.
    #[tactic(auto, unfolding(crate::specs::Conditions::begun_of))]
    pub(crate) fn begun(mut self, start: bool) -> Iic
        ensures { result ≡ begun_of start self }
    {
        self.lines.drive.scl = false;
        self.lines.drive.sda = start;
        self.flags.synchronized_hold = false;
        Iic {
            frame: None,
            condition: first_condition(start),
            command: None,
            hold: Hold::NoHold,
            monitor_wait: None,
            ..self
        }
    }

    // What was under way ends at a stop.
    fn at_stop(mut self) -> Iic
        ensures { result ≡ at_stop self }
    {
        self.flags.busy = false;
        self.flags.selected = false;
        self.flags.receive_enabled = false;
        self.flags.receive_stopped = false;
        Iic {
            frame: None,
            condition: Condition::NoCondition,
            hold: Hold::NoHold,
            clock_wait: None,
            monitor_wait: None,
            ..self
        }
    }

    // SDA is released, except in reset.
    #[tactic(auto, unfolding(crate::specs::Conditions::release_sda_of))]
    fn release_sda(mut self) -> Iic
        ensures { result ≡ release_sda_of self }
    {
        if self.flags.reset {
            return self;
        }
        self.lines.drive.sda = true;
        self
    }

    #[tactic(auto, unfolding(crate::specs::Conditions::bus_stop_of))]
    fn bus_stop(self) -> Iic
        ensures { result ≡ bus_stop_of self }
    {
        let meant = self.flags.selected
            | ((self.registers.control & MST != 0) & self.flags.completed);
        self.raise(bus::flag(meant, STOP)).at_stop().release_sda()
    }

    fn bus_start(mut self) -> Iic
        ensures { result ≡ bus_start_of self }
    {
        let lost = (self.registers.control & MST != 0) & self.lines.drive.sda;
        self = self.when_lost(lost);
        self.flags.busy = true;
        self.flags.selected = false;
        self.flags.completed = false;
        self.flags.receive_stopped = false;
        if self.flags.reset {
            return self;
        }
        self.begin_frame(true)
    }

    // A condition under way goes a stage on as the clock's wait ends.
    #[tactic(auto, unfolding(crate::specs::Conditions::clocked_of))]
    pub(crate) fn clock_condition(mut self) -> Iic
        ensures { result ≡ clocked_of self }
    {
        match self.condition {
            Condition::StartRelease => {
                self.lines.drive.scl = true;
                self.condition = Condition::StartHigh;
            }
            Condition::StartHold => {
                self.lines.drive.scl = false;
                self.condition = Condition::NoCondition;
            }
            Condition::StopLow => {
                self.lines.drive.scl = true;
                self.condition = Condition::StopHigh;
            }
            Condition::StopRelease => {
                self.lines.drive.sda = true;
                self.flags.receive_enabled = false;
                self.frame = None;
                self.condition = Condition::StopDetect;
            }
            _ => {}
        }
        self
    }

    // The levels are high for which a condition under way has waited.
    pub(crate) fn condition_high(self) -> bool
        ensures { result ≡ condition_high self }
    {
        match self.condition {
            Condition::StartHigh => self.lines.filtered.scl & self.lines.filtered.sda,
            Condition::StopHigh => self.lines.filtered.scl,
            _ => false,
        }
    }

    // What follows once they are: SDA falls for a start, or a stop waits to release it.
    #[tactic(auto, unfolding(crate::specs::Conditions::raised_of))]
    pub(crate) fn raise_condition(mut self) -> Iic
        ensures { result ≡ raised_of self }
    {
        match self.condition {
            Condition::StartHigh => {
                self.lines.drive.sda = false;
                self.condition = Condition::StartHold;
            }
            Condition::StopHigh => {
                self.condition = Condition::StopRelease;
            }
            _ => {}
        }
        self
    }

    // A start or a stop of the bus, outside synchronous mode.
    #[tactic(auto, unfolding(crate::specs::Conditions::bus_edge_of))]
    pub(crate) fn bus_edge(mut self, old: Levels) -> Iic
        ensures { result ≡ bus_edge_of old self }
    {
        if self.synchronous() {
            return self;
        }
        let new = self.lines.filtered;
        if bus::is_stop(old, new) {
            self = self.bus_stop();
        } else if bus::is_start(old, new) {
            self = self.bus_start();
        }
        self
    }
}
