// A byte on its way, and the order of its bits.
#![tactic(auto)]

pub mod mirror;
pub mod parts;

// What a frame is at: its bits, the ninth clock, or past it.
#[derive(Clone, Copy, Debug, PartialEq, Eq)]
pub enum Phase {
    Data,
    Ack,
    Done,
}

// A byte on its way.
#[derive(Clone, Copy, Debug, PartialEq, Eq)]
pub struct Frame {
    pub shift: u8,
    pub remaining: u8,
    pub phase: Phase,
    pub address: bool,
    pub transmit: bool,
    pub loaded: bool,
    pub last: bool,
}
