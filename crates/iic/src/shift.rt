// The shifter, from a frame's beginning to its completion.
ghost use Rattle.std.specs.Prelude.{◌≡◌};
ghost use Rattle.iic.specs.Shift.{acknowledged_of, addressed_of, arbitration_lost_of, begin_frame_of, complete_frame_of, end_synchronous_of, finished_of, last_bit_of, load_transmit_of, received_of, rising_data_of, rising_of, select_of, set_hold_of, when_lost_of};

use super::{Condition, Hold, Iic};
use frames::mirror::ordered;
use frames::parts::{bits_of, yielded_in};
use frames::{Frame, Phase};
use registers::bits::{
    AAS, ACKBR, ACKE, ADZ, AL, FS, MLS, MST, NACKF, RCVD, RDRF, SVA, TDRE, TEND, TRS,
};

impl Iic {
    // ICDRT goes into a frame that waits for it.
    #[tactic(auto, unfolding(crate::specs::Shift::load_transmit_of))]
    pub(crate) fn load_transmit(mut self) -> Iic
        ensures { result ≡ load_transmit_of self }
    {
        let Some(f) = self.frame else {
            return self;
        };
        let loads = f.starved() & !(self.registers.status & TDRE != 0);
        if loads {
            self = self.raise(TDRE);
            self.frame = Some(f.filled(self.registers.tdr));
        }
        self
    }

    #[tactic(auto, unfolding(crate::specs::Shift::begin_frame_of))]
    pub(crate) fn begin_frame(mut self, address: bool) -> Iic
        ensures { result ≡ begin_frame_of address self }
    {
        let master = self.registers.control & MST != 0;
        let sends = (self.registers.control & TRS != 0)
            & (master | (self.flags.selected & !address) | (self.registers.address & FS != 0));
        self.frame = Some(Frame {
            shift: 0,
            remaining: bits_of(address, self.registers.count),
            phase: Phase::Data,
            address,
            transmit: sends,
            loaded: !sends,
            last: !sends & master & (self.registers.control & RCVD != 0),
        });
        self.load_transmit()
    }

    // Another master has the bus: the outputs are released and the frame goes on as a receiver's.
    #[tactic(auto, unfolding(crate::specs::Shift::arbitration_lost_of))]
    pub(crate) fn arbitration_lost(mut self) -> Iic
        ensures { result ≡ arbitration_lost_of self }
    {
        self.registers.status |= AL;
        self.registers.control &= !(MST | TRS);
        self.lines.drive.scl = true;
        self.lines.drive.sda = true;
        self.flags.synchronized_hold = false;
        Iic {
            frame: yielded_in(self.frame),
            condition: Condition::NoCondition,
            command: None,
            hold: Hold::NoHold,
            clock_wait: None,
            monitor_wait: None,
            ..self
        }
    }

    // SCL is held low, except in synchronous mode.
    #[tactic(auto, unfolding(crate::specs::Shift::set_hold_of))]
    pub(crate) fn set_hold(mut self, hold: Hold) -> Iic
        ensures { result ≡ set_hold_of hold self }
    {
        if self.synchronous() {
            return self;
        }
        self.lines.drive.scl = false;
        self.unclocked().with_hold(hold)
    }

    // The ninth level, outside synchronous mode.
    #[tactic(auto, unfolding(crate::specs::Shift::acknowledged_of))]
    fn acknowledged(mut self, sda: bool) -> Iic
        ensures { result ≡ acknowledged_of sda self }
    {
        if self.synchronous() {
            return self;
        }
        let enable = (self.registers.enable & !ACKBR) | bus::flag(sda, ACKBR);
        self.registers.enable = enable;
        let nack = !bus::is_acknowledge(sda) & (enable & ACKE != 0);
        self.registers.status |= bus::flag(nack, NACKF);
        self
    }

    // A byte goes into ICDRR, unless a synchronous receive ended with RDRF set.
    #[tactic(auto, unfolding(crate::specs::Shift::overrun_of, crate::specs::Shift::received_of, crate::specs::Shift::stored_of))]
    fn received(mut self, byte: u8) -> Iic
        ensures { result ≡ received_of byte self }
    {
        let full = (self.registers.address & FS != 0) & (self.registers.status & RDRF != 0);
        if full {
            self.registers.status |= AL;
            self.registers.control &= !MST;
            self.lines.drive.scl = true;
            self = self.unclocked();
        } else {
            self.registers.rdr = ordered(self.registers.mode & MLS != 0, byte);
            self.registers.status |= RDRF;
        }
        self
    }

    // A byte is through.
    #[tactic(auto, unfolding(crate::specs::Shift::complete_frame_of, crate::specs::Shift::drained_of))]
    fn complete_frame(mut self, f: Frame, sda: bool) -> Iic
        ensures { result ≡ complete_frame_of f sda self }
    {
        self.registers.count = 0;
        self.flags.completed = true;
        if f.transmit {
            self = self.acknowledged(sda);
            let empty = self.registers.status & TDRE != 0;
            return self.raise(bus::flag(empty, TEND));
        }
        let receives = ((self.registers.control & MST != 0)
            | self.flags.selected
            | (self.registers.address & FS != 0))
            & !(f.address & bus::is_read(f.shift));
        if receives {
            self = self.received(f.shift);
        }
        self
    }

    #[tactic(auto, unfolding(crate::specs::Shift::when_lost_of))]
    pub(crate) fn when_lost(mut self, lost: bool) -> Iic
        ensures { result ≡ when_lost_of lost self }
    {
        if lost {
            self = self.arbitration_lost();
        }
        self
    }

    #[tactic(auto, unfolding(crate::specs::Shift::select_of))]
    fn select(mut self, byte: u8) -> Iic
        ensures { result ≡ select_of byte self }
    {
        let general = bus::is_general_call(byte);
        let read = bus::is_read(byte);
        self.registers.status = self.registers.status
            | AAS
            | bus::flag(general, ADZ)
            | bus::flag(read, TDRE);
        self.registers.control = (self.registers.control & !TRS) | bus::flag(read, TRS);
        self
    }

    #[tactic(auto, unfolding(crate::specs::Shift::addressed_of))]
    fn addressed(mut self, f: Frame) -> Iic
        ensures { result ≡ addressed_of f self }
    {
        let asked = f.address & !(self.registers.control & MST != 0);
        if asked {
            let byte = f.shift;
            let hit = (byte & SVA == self.registers.address & SVA) | bus::is_general_call(byte);
            self.flags.selected = hit;
            if hit {
                self = self.select(byte);
            }
        }
        self
    }

    #[tactic(auto, unfolding(crate::specs::Shift::finished_of))]
    fn finished(mut self, last: bool) -> Iic
        ensures { result ≡ finished_of last self }
    {
        if last {
            self.flags.receive_stopped = true;
            self.flags.receive_enabled = false;
            self.lines.drive.scl = true;
            self = self.unclocked();
        }
        self
    }

    #[tactic(auto, unfolding(crate::specs::Shift::end_synchronous_of))]
    fn end_synchronous(mut self, f: Frame, sda: bool) -> Iic
        ensures { result ≡ end_synchronous_of f sda self }
    {
        self = self.complete_frame(f, sda);
        self = self.finished(f.last);
        self.frame = Some(f.at(Phase::Done));
        self
    }

    #[tactic(auto, unfolding(crate::specs::Shift::last_bit_of))]
    fn last_bit(mut self, f: Frame, sda: bool) -> Iic
        ensures { result ≡ last_bit_of f sda self }
    {
        self = self.addressed(f);
        if self.synchronous() {
            return self.end_synchronous(f, sda);
        }
        self.frame = Some(f.at(Phase::Ack));
        self
    }

    #[tactic(auto, unfolding(crate::specs::Shift::rising_data_of))]
    fn rising_data(mut self, f: Frame, sda: bool) -> Iic
        ensures { result ≡ rising_data_of f sda self }
    {
        let lost = f.transmit
            & (self.registers.control & MST != 0)
            & self.lines.drive.sda
            & !sda
            & !(self.registers.address & FS != 0);
        self = self.when_lost(lost);
        let g = f.sampled(lost, sda);
        if g.remaining == 0 {
            return self.last_bit(g, sda);
        }
        self.frame = Some(g);
        self
    }

    // The clock has risen: SDA is sampled.
    #[tactic(auto, unfolding(crate::specs::Shift::rising_ack_of, crate::specs::Shift::rising_of))]
    pub(crate) fn rising(mut self, sda: bool) -> Iic
        ensures { result ≡ rising_of sda self }
    {
        let Some(f) = self.frame else {
            return self;
        };
        if !f.loaded {
            return self;
        }
        match f.phase {
            Phase::Data => {
                self = self.rising_data(f, sda);
            }
            Phase::Ack => {
                self = self.complete_frame(f, sda);
                self.frame = Some(f.at(Phase::Done));
            }
            Phase::Done => {}
        }
        self
    }
}
