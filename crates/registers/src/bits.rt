// The bits of the registers, by the manual's names (REJ09B0152, section 16.3).

// ICCR1
pub const ICE: u8 = 0x80;

pub const RCVD: u8 = 0x40;

pub const MST: u8 = 0x20;

pub const TRS: u8 = 0x10;

// ICCR2
pub const BBSY: u8 = 0x80;

pub const SCP: u8 = 0x40;

pub const SDAO: u8 = 0x20;

pub const SDAOP: u8 = 0x10;

pub const SCLO: u8 = 8;

pub const IICRST: u8 = 2;

// ICMR
pub const MLS: u8 = 0x80;

pub const WAIT: u8 = 0x40;

pub const BCWP: u8 = 8;

pub const BC: u8 = 7;

// ICIER
pub const NAKIE: u8 = 0x10;

pub const ACKE: u8 = 4;

pub const ACKBR: u8 = 2;

pub const ACKBT: u8 = 1;

// ICSR
pub const TDRE: u8 = 0x80;

pub const TEND: u8 = 0x40;

pub const RDRF: u8 = 0x20;

pub const NACKF: u8 = 0x10;

pub const STOP: u8 = 8;

pub const AL: u8 = 4;

pub const AAS: u8 = 2;

pub const ADZ: u8 = 1;

// SAR
pub const SVA: u8 = 0xfe;

pub const FS: u8 = 1;
