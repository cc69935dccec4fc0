// The registers of the peripheral as bytes (REJ09B0152, section 16.3): which of them an address chooses, what each shows, and what
// reads and writes set in them alone.
#![tactic(auto)]

pub mod bits;

ghost use Rattle.std.specs.Prelude.{◌≡◌};
ghost use Rattle.registers.specs.Registers.{data_given, data_taken, default_registers, enable_written, ranges_hold, register_at, shown, shown_control, status_written};

use bits::{ACKBR, BBSY, BCWP, IICRST, MLS, RDRF, SCLO, SCP, SDAO, SDAOP, TDRE, TEND, WAIT};
use bus::Levels;
use frames::mirror::ordered;

// Bytes, as the manual and the C side see them, and no struct of flags.
#[derive(Clone, Copy, Debug, PartialEq, Eq)]
pub struct Registers {
    pub control: u8,
    pub mode: u8,
    pub count: u8,
    pub enable: u8,
    pub status: u8,
    pub seen: u8,
    pub address: u8,
    pub tdr: u8,
    pub rdr: u8,
}

// The registers, by the manual's names.
#[derive(Clone, Copy, Debug, PartialEq, Eq)]
pub enum Register {
    ICCR1,
    ICCR2,
    ICMR,
    ICIER,
    ICSR,
    SAR,
    ICDRT,
    ICDRR,
}

impl Register {
    // Address bits 0 to 2 choose. A function, and no `From<u16>`: three bits of the address are looked at, so it isn't the address converted.
    #[tactic(auto, unfolding(crate::specs::Registers::register_at))]
    pub fn at(address: u16) -> Register
        ensures { result ≡ register_at address }
    {
        match address & 7 {
            0 => Register::ICCR1,
            1 => Register::ICCR2,
            2 => Register::ICMR,
            3 => Register::ICIER,
            4 => Register::ICSR,
            5 => Register::SAR,
            6 => Register::ICDRT,
            _ => Register::ICDRR,
        }
    }
}

// ICCR2, of which no byte is kept: SCP, SDAOP and the reserved bits 0 and 2 read 1.
fn shown_control(drive: Levels, busy: bool, reset: bool) -> u8
    ensures { result ≡ shown_control drive busy reset }
{
    bus::flag(busy, BBSY)
        | (SCP | SDAOP | 5)
        | bus::flag(drive.sda, SDAO)
        | bus::flag(drive.scl, SCLO)
        | bus::flag(reset, IICRST)
}

impl Registers {
    // At power-on.
    pub fn new() -> Registers
        ensures { result ≡ default_registers }
    {
        Registers {
            control: 0,
            mode: 0,
            count: 0,
            enable: 0,
            status: 0,
            seen: 0,
            address: 0,
            tdr: 0xff,
            rdr: 0xff,
        }
    }

    // What a register shows: ICCR2 what is driven, whether the bus is busy and whether the peripheral is in reset; ICMR the bit count
    // of the frame under way, or else its own, and BCWP and the reserved bits 4 and 5 read 1.
    pub fn shown(self, register: Register, drive: Levels, busy: bool, reset: bool, count: u8) -> u8
        ensures { result ≡ shown register drive busy reset count self }
    {
        match register {
            Register::ICCR1 => self.control,
            Register::ICCR2 => shown_control(drive, busy, reset),
            Register::ICMR => self.mode | (BCWP | 0x30) | count,
            Register::ICIER => self.enable,
            Register::ICSR => self.status,
            Register::SAR => self.address,
            Register::ICDRT => self.tdr,
            Register::ICDRR => self.rdr,
        }
    }

    // The count is at most 7, and the mode has no bits but MLS and WAIT.
    pub fn ranges_hold(self) -> bool
        ensures { result ≡ ranges_hold self }
    {
        (self.count < 8) & (self.mode & !(MLS | WAIT) == 0)
    }

    // ICDRR was read.
    pub fn take_data(mut self) -> Registers
        ensures { result ≡ data_taken self }
    {
        self.status = self.status & !RDRF;
        self.seen = self.seen & !RDRF;
        self
    }

    // ICIER was written: ACKBR is read only.
    pub fn write_enable(mut self, value: u8) -> Registers
        ensures { result ≡ enable_written value self }
    {
        self.enable = (value & !ACKBR) | (self.enable & ACKBR);
        self
    }

    // ICSR was written: flags both in `seen` and written 0 are cleared.
    pub fn write_status(mut self, value: u8) -> Registers
        ensures { result ≡ status_written value self }
    {
        let status = self.status & !(self.seen & !value);
        self.status = status;
        self.seen = self.seen & status;
        self
    }

    // ICDRT was written.
    pub fn give_data(mut self, value: u8) -> Registers
        ensures { result ≡ data_given value self }
    {
        let low_first = self.mode & MLS != 0;
        self.tdr = ordered(low_first, value);
        self.status = self.status & !(TDRE | TEND);
        self.seen = self.seen & !(TDRE | TEND);
        self
    }
}
