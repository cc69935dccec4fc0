// The I2C peripheral (IIC2) of the H8/38602R: its state, its steps and the eleven calls of its host, by value.
#![tactic(auto)]

pub mod calls;
pub mod checks;
pub mod clocking;
pub mod conditions;
pub mod edges;
pub mod endings;
pub mod falls;
pub mod filter;
pub mod kick;
pub mod over;
pub mod reading;
pub mod ready;
pub mod shift;
pub mod state;
pub mod waiting;
pub mod writing;

use bus::Levels;
use clocks::wait::ClockWait;
use frames::Frame;
use rates::Rates;
use refusals::Refusal;
use registers::Registers;
use time::Time;
use waits::HalfWait;

// A start or a stop that the master is about; none is a stage among the others, since as an Option each arm on a stage would be longer
// (`Some(Condition::StartHigh)`) and say no more.
#[derive(Clone, Copy, Debug, PartialEq, Eq)]
pub enum Condition {
    NoCondition,
    StartRelease,
    StartHigh,
    StartHold,
    StopLow,
    StopHigh,
    StopRelease,
    StopDetect,
}

// SCL held low until a register is served, or not; as an Option of the two registers it would be written `Some(Hold::Transmit)` and say no more.
#[derive(Clone, Copy, Debug, PartialEq, Eq)]
pub enum Hold {
    NoHold,
    Transmit,
    Receive,
}

// What the peripheral drives (true releases the line), the levels as given, and those that the filter saw and let through.
#[derive(Clone, Copy, Debug, PartialEq, Eq)]
pub struct Lines {
    pub drive: Levels,
    pub raw: Levels,
    pub latch: Levels,
    pub filtered: Levels,
}

#[derive(Clone, Copy, Debug, PartialEq, Eq)]
pub struct Flags {
    pub busy: bool,
    pub reset: bool,
    pub gate: bool,
    pub synchronized_hold: bool,
    pub selected: bool,
    pub completed: bool,
    pub receive_enabled: bool,
    pub receive_stopped: bool,
    pub stale_release: bool,
}

// The peripheral. The rate set is given when it is made.
#[derive(Clone, Copy, Debug, PartialEq, Eq)]
pub struct Iic {
    pub registers: Registers,
    pub lines: Lines,
    pub flags: Flags,
    pub frame: Option<Frame>,
    pub condition: Condition,
    // A start (true) or a stop (false) that was asked for.
    pub command: Option<bool>,
    pub hold: Hold,
    pub eighth_fall: Option<Time>,
    pub clock_wait: Option<HalfWait>,
    pub monitor_wait: Option<HalfWait>,
    pub filter_wait: Option<ClockWait>,
    pub setup_wait: Option<ClockWait>,
    pub rates: Rates,
}

// The time at which something ends, none where nothing does.
pub type Deadline = Result<Option<Time>, Refusal>;

// When the waits of the filter and of the setup end, which may be on any tap.
#[derive(Clone, Copy)]
pub struct Ends {
    pub filter: Deadline,
    pub setup: Deadline,
}

// What a call answers, and the state at that point: the calls are by value (document 01) and a refusal rolls nothing back, so the state stands
// beside the answer and not in it.
#[derive(Clone, Copy)]
pub struct Answered<A> {
    pub answer: Result<A, Refusal>,
    pub state: Iic,
}

// A step of the peripheral, refused or not.
pub type Stepped = Answered<()>;
