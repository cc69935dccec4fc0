// The default state, its parts set anew, and the tests on it.
ghost use Rattle.std.specs.Prelude.{◌≡◌};
ghost use Rattle.iic.specs.Setters.{set_hold};
ghost use Rattle.iic.specs.State.{awake, commanded, conditioned, default_iic, default_flags, enabled, framed, held, initial, master, raise, stop_shifter_of, synchronous, transmits, unclocked, with_rates_of};

use super::{Condition, Flags, Hold, Iic, Lines, Stepped};
use bus::Levels;
use rates::Rates;
use refusals::Refusal;
use registers::Registers;
use registers::bits::{FS, ICE, MST, TRS};

impl Flags {
    fn new() -> Flags
        ensures { result ≡ default_flags }
    {
        Flags {
            busy: false,
            reset: false,
            gate: false,
            synchronized_hold: false,
            selected: false,
            completed: false,
            receive_enabled: false,
            receive_stopped: false,
            stale_release: false,
        }
    }
}

impl Iic {
    // The state at power-on.
    pub fn new() -> Iic
        ensures { result ≡ default_iic }
    {
        Iic::initial(Rates::default())
    }

    // The same with another rate set, and whether that is refused.
    pub fn with_rates(rates: Rates) -> Stepped
        ensures { result ≡ with_rates_of rates }
    {
        let state = Iic::initial(rates);
        if rates.hold() {
            state.fine()
        } else {
            state.refused(Refusal::Rates)
        }
    }

    #[tactic(auto, unfolding(crate::specs::State::initial))]
    fn initial(rates: Rates) -> Iic
        ensures { result ≡ initial rates }
    {
        let high = Levels {
            scl: true,
            sda: true,
        };
        Iic {
            registers: Registers::new(),
            lines: Lines {
                drive: high,
                raw: high,
                latch: high,
                filtered: high,
            },
            flags: Flags::new(),
            frame: None,
            condition: Condition::NoCondition,
            command: None,
            hold: Hold::NoHold,
            eighth_fall: None,
            clock_wait: None,
            monitor_wait: None,
            filter_wait: None,
            setup_wait: None,
            rates,
        }
    }

    pub fn with_hold(self, hold: Hold) -> Iic
        ensures { result ≡ set_hold hold self }
    {
        Iic { hold, ..self }
    }

    // Neither of the two half waits.
    pub(crate) fn unclocked(self) -> Iic
        ensures { result ≡ unclocked self }
    {
        Iic {
            clock_wait: None,
            monitor_wait: None,
            ..self
        }
    }

    pub(crate) fn raise(mut self, flags: u8) -> Iic
        ensures { result ≡ raise flags self }
    {
        self.registers.status |= flags;
        self
    }

    pub(crate) fn enabled(self) -> bool
        ensures { result ≡ enabled self }
    {
        self.registers.control & ICE != 0
    }

    pub(crate) fn master(self) -> bool
        ensures { result ≡ master self }
    {
        self.registers.control & MST != 0
    }

    pub(crate) fn transmit(self) -> bool
        ensures { result ≡ transmits self }
    {
        self.registers.control & TRS != 0
    }

    pub(crate) fn synchronous(self) -> bool
        ensures { result ≡ synchronous self }
    {
        self.registers.address & FS != 0
    }

    // Enabled, and the gate is on.
    pub(crate) fn awake(self) -> bool
        ensures { result ≡ awake self }
    {
        self.flags.gate & (self.registers.control & ICE != 0)
    }

    pub(crate) fn framed(self) -> bool
        ensures { result ≡ framed self }
    {
        self.frame.is_some()
    }

    pub(crate) fn conditioned(self) -> bool
        ensures { result ≡ conditioned self }
    {
        self.condition != Condition::NoCondition
    }

    pub(crate) fn commanded(self) -> bool
        ensures { result ≡ commanded self }
    {
        self.command.is_some()
    }

    pub(crate) fn held(self) -> bool
        ensures { result ≡ held self }
    {
        self.hold != Hold::NoHold
    }

    // All that is under way stops, and both lines are released.
    #[tactic(auto, unfolding(crate::specs::State::stop_shifter_of))]
    pub(crate) fn stop_shifter(mut self) -> Iic
        ensures { result ≡ stop_shifter_of self }
    {
        self.lines.drive.scl = true;
        self.lines.drive.sda = true;
        self.flags.synchronized_hold = false;
        self.flags.receive_enabled = false;
        self.flags.receive_stopped = false;
        Iic {
            frame: None,
            condition: Condition::NoCondition,
            command: None,
            hold: Hold::NoHold,
            clock_wait: None,
            monitor_wait: None,
            setup_wait: None,
            ..self
        }
    }
}
