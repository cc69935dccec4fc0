// The calls that a clock set is handed to, but for `set_gate`: what they do by the system domain, which is all that they look at of a set
// but for a zero in it and the ends of the filter's and the setup's wait; and the same calls over the system clock alone.
ghost use Rattle.std.specs.Prelude.{◌≡◌};
ghost use Rattle.iic.specs.Calls.{deadline_by, input_pins_by, read_by, take_pins_of, write_by};
ghost use Rattle.iic.specs.Over.{advance_by, advance_over, deadline_over, input_pins_over, read_over, system_ends, waits_on_system, write_over};

use super::{Answered, Deadline, Ends, Iic, Stepped};
use bus::Levels;
use domain::Domain;
use refusals::Refusal;
use registers::Register;
use time::Time;
use waits::ends::{half_end, is_on_system, sooner, system_end};

// The guard is tested in place: as closures of a function that tests it the calls copy the state more often, and a trace of writes takes a quarter
// longer.
impl Iic {
    pub(crate) fn read_by(self, zero: bool, address: u16, now: Time, system: Domain) -> Answered<u8>
        ensures { result ≡ read_by zero self address now system }
    {
        let value = self.peek(address);
        if let Err(refusal) = self.guard(zero) {
            return Answered {
                answer: Err(refusal),
                state: self,
            };
        }
        self.read_at(Register::at(address), now, system)
            .answering(value)
    }

    pub(crate) fn write_by(
        self,
        zero: bool,
        address: u16,
        value: u8,
        now: Time,
        system: Domain,
    ) -> Stepped
        ensures { result ≡ write_by zero self address value now system }
    {
        if let Err(refusal) = self.guard(zero) {
            return self.refused(refusal);
        }
        self.write_at(Register::at(address), value, now, system)
    }

    #[tactic(auto, unfolding(crate::specs::Calls::take_pins_of))]
    fn take_pins(mut self, given: Levels, now: Time, system: Domain) -> Stepped
        ensures { result ≡ take_pins_of given now system self }
    {
        if self.lines.raw == given {
            return self.fine();
        }
        self.lines.raw = given;
        self.fine().schedule_filter(now, system)
    }

    pub(crate) fn input_pins_by(
        self,
        zero: bool,
        scl: bool,
        sda: bool,
        now: Time,
        system: Domain,
    ) -> Answered<bool>
        ensures { result ≡ input_pins_by zero self scl sda now system }
    {
        let given = Levels { scl, sda };
        let value = self.observes(given);
        if let Err(refusal) = self.guard(zero) {
            return Answered {
                answer: Err(refusal),
                state: self,
            };
        }
        self.take_pins(given, now, system).answering(value)
    }

    #[tactic(auto, unfolding(crate::specs::Calls::earliest_of))]
    pub(crate) fn deadline_by(self, zero: bool, ends: Ends, system: Domain) -> Deadline
        ensures { result ≡ deadline_by zero ends self system }
    {
        if zero {
            return Err(Refusal::ZeroFrequency);
        }
        if !self.awake() {
            return Ok(None);
        }
        let monitor = sooner(half_end(self.monitor_wait, system), ends.setup);
        let clock = sooner(half_end(self.clock_wait, system), monitor);
        sooner(ends.filter, clock)
    }

    pub(crate) fn advance_by(self, zero: bool, ends: Ends, now: Time, system: Domain) -> Stepped
        ensures { result ≡ advance_by zero ends self now system }
    {
        if let Err(refusal) = self.guard(zero) {
            return self.refused(refusal);
        }
        if !self.awake() {
            return self.fine();
        }
        self.fine().visit(ends, now, system)
    }
}

// Over the system clock alone.
impl Iic {
    #[tactic(auto, unfolding(crate::specs::Over::read_over))]
    pub fn read_over(mut self, address: u16, now: Time, system: Domain) -> Answered<u8>
        ensures { result ≡ read_over self address now system }
    {
        self.read_by(system.has_zero(), address, now, system)
    }

    #[tactic(auto, unfolding(crate::specs::Over::write_over))]
    pub fn write_over(mut self, address: u16, value: u8, now: Time, system: Domain) -> Stepped
        ensures { result ≡ write_over self address value now system }
    {
        self.write_by(system.has_zero(), address, value, now, system)
    }

    #[tactic(auto, unfolding(crate::specs::Over::input_pins_over))]
    pub fn input_pins_over(
        mut self,
        scl: bool,
        sda: bool,
        now: Time,
        system: Domain,
    ) -> Answered<bool>
        ensures { result ≡ input_pins_over self scl sda now system }
    {
        self.input_pins_by(system.has_zero(), scl, sda, now, system)
    }

    // Whether the waits that may be on any tap are on the system clock itself.
    pub fn waits_on_system(self) -> bool
        ensures { result ≡ waits_on_system self }
    {
        is_on_system(self.filter_wait) & is_on_system(self.setup_wait)
    }

    // When they end, where they are.
    fn system_ends(self, system: Domain) -> Ends
        ensures { result ≡ system_ends self system }
    {
        Ends {
            filter: system_end(self.filter_wait, system),
            setup: system_end(self.setup_wait, system),
        }
    }

    #[tactic(auto, unfolding(crate::specs::Over::deadline_over))]
    pub fn deadline_over(self, system: Domain) -> Deadline
        ensures { result ≡ deadline_over self system }
    {
        self.deadline_by(system.has_zero(), self.system_ends(system), system)
    }

    #[tactic(auto, unfolding(crate::specs::Over::advance_over))]
    pub fn advance_over(mut self, now: Time, system: Domain) -> Stepped
        ensures { result ≡ advance_over self now system }
    {
        self.advance_by(system.has_zero(), self.system_ends(system), now, system)
    }
}
