// The eleven calls of the peripheral's host, each with its answer and, where it may change the state, the next one. Time and clocks are operands of
// their own in document 01, so they go as such through calls and steps.
ghost use Rattle.std.specs.Prelude.{◌≡◌};
ghost use Rattle.iic.specs.Answers.{and_then};
ghost use Rattle.iic.specs.Calls.{advance_of, deadline_of, ends_of, guard_by, input_pins_of, interrupt_with_enable_of, keep_stretched_of, peek_of, pins_of, read_of, set_gate_of, turn_gate_of, turn_waits_of, validate_of, waits_refusal, write_of};

use super::{Answered, Deadline, Ends, Iic, Stepped};
use bus::Levels;
use clocks::Clocks;
use domain::Domain;
use refusals::Refusal;
use registers::Register;
use registers::bits::{AL, FS, NACKF, NAKIE, RDRF, STOP, TDRE, TEND};
use time::Time;
use waits::ends::{tap_refusal, wait_end};

impl Iic {
    // A zero in a clock of the set, then the rate set, the ranges and the progress of a frame stand before a call.
    pub(crate) fn guard(self, zero: bool) -> Result<(), Refusal>
        ensures { result ≡ guard_by zero self }
    {
        refusals::before_call(
            zero,
            self.rates.hold(),
            self.registers.ranges_hold(),
            self.progress(),
        )
    }

    // What a register shows.
    #[tactic(auto, unfolding(crate::specs::Calls::peek_of))]
    pub fn peek(self, address: u16) -> u8
        ensures { result ≡ peek_of self address }
    {
        self.peek_at(Register::at(address))
    }

    // `read`, `write` and `input_pins` are never inlined: a function pays at its entry for all its locals, and a caller of them all would pay for each.
    #[inline(never)]
    #[tactic(auto, unfolding(crate::specs::Calls::read_of))]
    pub fn read(mut self, address: u16, now: Time, clocks: Clocks) -> Answered<u8>
        ensures { result ≡ read_of self address now clocks }
    {
        self.read_by(clocks.has_zero(), address, now, clocks.system)
    }

    #[inline(never)]
    #[tactic(auto, unfolding(crate::specs::Calls::write_of))]
    pub fn write(mut self, address: u16, value: u8, now: Time, clocks: Clocks) -> Stepped
        ensures { result ≡ write_of self address value now clocks }
    {
        self.write_by(clocks.has_zero(), address, value, now, clocks.system)
    }

    // The levels of the lines, as given.
    #[inline(never)]
    #[tactic(auto, unfolding(crate::specs::Calls::input_pins_of))]
    pub fn input_pins(mut self, scl: bool, sda: bool, now: Time, clocks: Clocks) -> Answered<bool>
        ensures { result ≡ input_pins_of self scl sda now clocks }
    {
        self.input_pins_by(clocks.has_zero(), scl, sda, now, clocks.system)
    }

    // What the peripheral drives.
    pub fn pins(self) -> Option<Levels>
        ensures { result ≡ pins_of self }
    {
        if self.enabled() {
            return Some(self.lines.drive);
        }
        None
    }

    // Clock, monitor, filter and setup resume or pause.
    #[tactic(auto, unfolding(crate::specs::Calls::turn_waits_of))]
    fn turn_waits(self, gate: bool, now: Time, clocks: Clocks) -> Stepped
        ensures { result ≡ turn_waits_of gate now clocks self }
    {
        self.fine()
            .turn_clock(gate, now, clocks.system)
            .turn_monitor(gate, now, clocks.system)
            .keep_stretched(gate, now, clocks.system)
            .turn_filter(gate, now, clocks)
            .turn_setup(gate, now, clocks)
    }

    #[tactic(auto, unfolding(crate::specs::Calls::turn_gate_of))]
    fn turn_gate(mut self, gate: bool, now: Time, clocks: Clocks) -> Stepped
        ensures { result ≡ turn_gate_of gate now clocks self }
    {
        if self.flags.gate == gate {
            return self.fine();
        }
        self.flags.gate = gate;
        let next = self.turn_waits(gate, now, clocks);
        if gate {
            return next
                .schedule_filter(now, clocks.system)
                .kick(now, clocks.system);
        }
        next
    }

    // Whether the peripheral's clock runs.
    #[tactic(auto, unfolding(crate::specs::Calls::set_gate_of))]
    pub fn set_gate(mut self, gate: bool, now: Time, clocks: Clocks) -> Stepped
        ensures { result ≡ set_gate_of self gate now clocks }
    {
        if let Err(refusal) = self.guard(clocks.has_zero()) {
            return self.refused(refusal);
        }
        self.turn_gate(gate, now, clocks)
    }

    // When the waits end that may be on any tap; never inlined, since most visits go over the system clock alone.
    #[inline(never)]
    fn ends(self, clocks: Clocks) -> Ends
        ensures { result ≡ ends_of self clocks }
    {
        Ends {
            filter: wait_end(self.filter_wait, clocks),
            setup: wait_end(self.setup_wait, clocks),
        }
    }

    // The time of the next visit.
    #[tactic(auto, unfolding(crate::specs::Calls::deadline_of))]
    pub fn deadline(self, clocks: Clocks) -> Deadline
        ensures { result ≡ deadline_of self clocks }
    {
        self.deadline_by(clocks.has_zero(), self.ends(clocks), clocks.system)
    }

    // A visit: waits whose time is now fire.
    #[tactic(auto, unfolding(crate::specs::Calls::advance_of))]
    pub fn advance(mut self, now: Time, clocks: Clocks) -> Stepped
        ensures { result ≡ advance_of self now clocks }
    {
        self.advance_by(clocks.has_zero(), self.ends(clocks), now, clocks.system)
    }

    // Whether an interrupt is asked for.
    pub fn interrupt(self) -> bool
        ensures { result ≡ interrupt_with_enable_of self 0 }
    {
        self.interrupt_with_enable(0)
    }

    // The same, with further enables that the host retained.
    pub fn interrupt_with_enable(self, retained: u8) -> bool
        ensures { result ≡ interrupt_with_enable_of self retained }
    {
        let enable = self.registers.enable | retained;
        let sync = self.registers.address & FS != 0;
        let shown = self.registers.status & enable;
        let mask = AL | bus::flag(!sync, NACKF);
        (shown & (TDRE | TEND | RDRF) != 0)
            | (!sync & (shown & STOP != 0))
            | ((enable & NAKIE != 0) & (self.registers.status & mask != 0))
    }

    // Whether a state is refused.
    #[tactic(auto, unfolding(crate::specs::Calls::validate_of))]
    pub fn validate(self, now: Time) -> Result<(), Refusal>
        ensures { result ≡ validate_of self now }
    {
        let sound = self.registers.ranges_hold() & self.fell_by(now);
        refusals::of_state(
            self.rates.hold(),
            sound,
            self.progress(),
            self.waits_refusal(),
        )
    }

    // A tap with the divider 0, or a half count near the top.
    #[tactic(auto, unfolding(crate::specs::Calls::waits_refusal))]
    fn waits_refusal(self) -> Result<(), Refusal>
        ensures { result ≡ waits_refusal self }
    {
        tap_refusal(self.filter_wait)?;
        tap_refusal(self.setup_wait)?;
        self.halves_refusal()
    }
}

impl Answered<()> {
    // A wait that a stretched clock paused stays paused.
    #[tactic(auto, unfolding(crate::specs::Calls::keep_stretched_of))]
    fn keep_stretched(mut self, gate: bool, now: Time, system: Domain) -> Stepped
        ensures { result ≡ and_then self (keep_stretched_of gate now system) }
    {
        if self.went_on() & gate & self.state.flags.synchronized_hold {
            self = self.state.turn_clock(false, now, system);
        }
        self
    }
}
