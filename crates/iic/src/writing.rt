// The registers as the host writes them, with what follows in time.
ghost use Rattle.std.specs.Prelude.{◌≡◌};
ghost use Rattle.iic.specs.Writing.{enter_reset_of, give_data_of, pull_sda_of, redirected, send_on_of, stop_receive_of, take_control_of, takes_command, write_at, write_command_of, write_control_of, write_data_of, write_mode_of};
ghost use Rattle.iic.specs.Inside.{write_plain};

use super::{Hold, Iic, Stepped};
use domain::Domain;
use frames::parts::{is_done_in, recounted_in, redirected_in};
use registers::Register;
use registers::bits::{
    ACKE, BBSY, BC, BCWP, FS, ICE, IICRST, MLS, MST, RCVD, SCP, SDAO, SDAOP, TDRE, TRS, WAIT,
};
use time::Time;

impl Iic {
    #[tactic(auto, unfolding(crate::specs::Writing::redirected))]
    fn redirect(mut self, value: u8) -> Iic
        ensures { result ≡ redirected value self }
    {
        let transmit = self.registers.control & TRS != 0;
        let master = self.registers.control & MST != 0;
        let scl = self.lines.filtered.scl;
        self.frame = redirected_in(self.frame, transmit, master, value & RCVD != 0, scl);
        self.flags.receive_enabled = (self.registers.address & FS != 0) & !transmit;
        self.flags.receive_stopped = false;
        self
    }

    #[tactic(auto, unfolding(crate::specs::Writing::control_set, crate::specs::Writing::take_control_of))]
    pub(crate) fn take_control(mut self, value: u8) -> Iic
        ensures { result ≡ take_control_of value self }
    {
        let same = self.registers.control & (MST | TRS) == value & (MST | TRS);
        let comes = !(self.registers.control & TRS != 0) & (value & TRS != 0);
        self.registers.control = value;
        self = self.raise(bus::flag(comes, TDRE));
        if same {
            return self;
        }
        self.redirect(value)
    }

    // A synchronous receiver with RCVD and no frame receives nothing.
    #[tactic(auto, unfolding(crate::specs::Writing::stop_receive_of))]
    pub(crate) fn stop_receive(mut self) -> Iic
        ensures { result ≡ stop_receive_of self }
    {
        let stops = (self.registers.address & FS != 0)
            & !(self.registers.control & TRS != 0)
            & (self.registers.control & RCVD != 0)
            & !self.framed();
        self.flags.receive_enabled &= !stops;
        self
    }

    #[tactic(auto, unfolding(crate::specs::Writing::enter_reset_of))]
    pub(crate) fn enter_reset(mut self) -> Iic
        ensures { result ≡ enter_reset_of self }
    {
        let transmit = self.registers.control & TRS != 0;
        self.flags.reset = true;
        self = self.stop_shifter();
        self.raise(bus::flag(transmit, TDRE))
    }

    // SDA as SDAO asks, where SDAOP is 0.
    #[tactic(auto, unfolding(crate::specs::Writing::pull_sda_of))]
    pub(crate) fn pull_sda(mut self, value: u8) -> Iic
        ensures { result ≡ pull_sda_of value self }
    {
        if value & SDAOP != 0 {
            return self;
        }
        self.lines.drive.sda = value & SDAO != 0;
        self
    }

    // A start or a stop is asked for, and isn't a stop before the ninth falling edge, which ACKE loses.
    pub(crate) fn takes_command(self, value: u8) -> bool
        ensures { result ≡ takes_command value self }
    {
        let given = !(value & SCP != 0)
            & (self.registers.control & MST != 0)
            & !(self.registers.address & FS != 0)
            & (self.registers.control & ICE != 0);
        let lost = !(value & BBSY != 0)
            & (self.registers.enable & ACKE != 0)
            & (self.registers.control & TRS != 0)
            & self.lines.filtered.scl
            & is_done_in(self.frame);
        given & !lost
    }

    #[tactic(auto, unfolding(crate::specs::Writing::write_mode_of))]
    fn write_mode(mut self, value: u8) -> Iic
        ensures { result ≡ write_mode_of value self }
    {
        self.registers.mode = value & (MLS | WAIT);
        if value & BCWP != 0 {
            return self;
        }
        self.registers.count = value & BC;
        self.frame = recounted_in(self.frame, value & BC);
        self
    }

    // The registers whose write alone starts no wait; in synchronous mode, by SAR, BBSY is 0.
    #[tactic(auto, unfolding(crate::specs::Writing::write_address_of, crate::specs::Writing::write_enable_of, crate::specs::Writing::write_status_of))]
    pub(crate) fn write_plain(mut self, register: Register, value: u8) -> Iic
        ensures { result ≡ write_plain register value self }
    {
        match register {
            Register::ICMR => {
                self = self.write_mode(value);
            }
            Register::ICIER => {
                self.registers = self.registers.write_enable(value);
            }
            Register::ICSR => {
                self.registers = self.registers.write_status(value);
            }
            Register::SAR => {
                self.flags.busy &= !(value & FS != 0);
                self.registers.address = value;
            }
            _ => {}
        }
        self
    }

    #[tactic(auto, unfolding(crate::specs::Writing::give_data_of))]
    pub(crate) fn give_data(mut self, value: u8) -> Iic
        ensures { result ≡ give_data_of value self }
    {
        self.registers = self.registers.give_data(value);
        self
    }

    #[tactic(auto, unfolding(crate::specs::Writing::write_control_of))]
    fn write_control(mut self, value: u8, now: Time, system: Domain) -> Stepped
        ensures { result ≡ write_control_of value now system self }
    {
        self = self.take_control(value);
        if self.enabled() {
            return self
                .fine()
                .schedule_filter(now, system)
                .and_then(|s| s.stop_receive().fine())
                .kick(now, system);
        }
        self = self.stop_shifter();
        self.filter_wait = None;
        self.fine()
    }

    #[tactic(auto, unfolding(crate::specs::Writing::out_of_reset_of, crate::specs::Writing::write_command_of))]
    fn write_command(mut self, value: u8, now: Time, system: Domain) -> Stepped
        ensures { result ≡ write_command_of value now system self }
    {
        if value & IICRST != 0 {
            return self.enter_reset().fine();
        }
        if self.flags.reset {
            self.flags.reset = false;
            return self.fine();
        }
        self = self.pull_sda(value);
        if self.takes_command(value) {
            self.command = Some(value & BBSY != 0);
            return self.fine().kick(now, system);
        }
        self.fine()
    }

    // The byte goes to a frame that SCL was held for.
    #[tactic(auto, unfolding(crate::specs::Writing::send_on_of))]
    fn send_on(self, now: Time, system: Domain) -> Stepped
        ensures { result ≡ send_on_of now system self }
    {
        if self.hold == Hold::Transmit {
            return self.load_transmit().release_hold(now, system);
        }
        self.fine()
    }

    #[tactic(auto, unfolding(crate::specs::Writing::write_data_of))]
    fn write_data(self, value: u8, now: Time, system: Domain) -> Stepped
        ensures { result ≡ write_data_of value now system self }
    {
        self.give_data(value).send_on(now, system).kick(now, system)
    }

    #[tactic(auto, unfolding(crate::specs::Writing::write_at))]
    pub(crate) fn write_at(
        mut self,
        register: Register,
        value: u8,
        now: Time,
        system: Domain,
    ) -> Stepped
        ensures { result ≡ write_at register value now system self }
    {
        self = self.write_plain(register, value);
        match register {
            Register::ICCR1 => self.write_control(value, now, system),
            Register::ICCR2 => self.write_command(value, now, system),
            Register::ICSR | Register::SAR => self.fine().kick(now, system),
            Register::ICDRT => self.write_data(value, now, system),
            _ => self.fine(),
        }
    }
}
