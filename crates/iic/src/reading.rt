// The registers as the host reads them, with what follows in time.
ghost use Rattle.std.specs.Prelude.{◌≡◌};
ghost use Rattle.iic.specs.Reading.{continued_of, fell_now, peek_at, read_at, read_data_of, taken_of};

use super::{Iic, Stepped};
use domain::Domain;
use frames::parts::{marked_in, shown_count};
use registers::Register;
use registers::bits::{MST, RCVD};
use time::Time;

impl Iic {
    // What a register shows.
    pub(crate) fn peek_at(self, register: Register) -> u8
        ensures { result ≡ peek_at register self }
    {
        let count = shown_count(self.frame, self.registers.count);
        self.registers.shown(
            register,
            self.lines.drive,
            self.flags.busy,
            self.flags.reset,
            count,
        )
    }

    // The eighth fall was at this very time.
    fn fell_at(self, now: Time) -> bool
        ensures { result ≡ fell_now self.eighth_fall now }
    {
        self.eighth_fall.is_some_and(|t| t.same(now))
    }

    // ICDRR was read.
    #[tactic(auto, unfolding(crate::specs::Reading::taken_of))]
    pub(crate) fn taken(mut self, now: Time) -> Iic
        ensures { result ≡ taken_of now self }
    {
        self.flags.stale_release |= self.fell_at(now);
        self.registers = self.registers.take_data();
        self
    }

    #[tactic(auto, unfolding(crate::specs::Reading::continued_of))]
    pub(crate) fn continued(mut self) -> Iic
        ensures { result ≡ continued_of self }
    {
        let goes = (self.registers.control & MST != 0) & !self.flags.receive_stopped;
        if goes {
            self.flags.receive_enabled = true;
            let last = self.registers.control & RCVD != 0;
            self.frame = marked_in(self.frame, last);
        }
        self
    }

    #[tactic(auto, unfolding(crate::specs::Reading::read_data_of, crate::specs::Reading::resumed_of))]
    fn read_data(mut self, now: Time, system: Domain) -> Stepped
        ensures { result ≡ read_data_of now system self }
    {
        self = self.taken(now);
        if self.transmit() {
            return self.fine();
        }
        self = self.continued();
        let next = if self.held() {
            self.release_hold(now, system)
        } else {
            self.fine()
        };
        next.kick(now, system)
    }

    #[tactic(auto, unfolding(crate::specs::Reading::read_at))]
    pub(crate) fn read_at(mut self, register: Register, now: Time, system: Domain) -> Stepped
        ensures { result ≡ read_at register now system self }
    {
        match register {
            Register::ICSR => {
                self.registers.seen = self.registers.status;
                self.fine()
            }
            Register::ICDRR => self.read_data(now, system),
            _ => self.fine(),
        }
    }
}
