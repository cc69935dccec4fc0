// What a line of a trace does to the peripheral, and what is written for it: its answer line, its report or the signals after it.
#![tactic(auto)]

ghost use Rattle.std.specs.Prelude.{◌≡◌};
ghost use Rattle.answers.specs.Calls.{trace_clocks};

pub mod calls;
pub mod text;
pub mod wave;
pub mod writing;

use bus::Levels;
use clocks::{Clocks, Frequencies};
use domain::Domain;
use iic::{Answered, Iic};
use refusals::Refusal;
use time::{Clock, Time};
use window::Window;

// The peripheral under a trace.
#[derive(Clone, Copy)]
pub struct Host {
    // The time of the last line that wasn't refused 4 or 5.
    pub last: Option<Time>,
    pub state: Iic,
}

// The value in an answer line.
#[derive(Clone, Copy)]
pub enum Value {
    Byte(u8),
    Bit(bool),
    Moment(Time),
}

// Whose line an answer line is, with the levels and the status that the peripheral shows after it: the only peripheral of a trace, a unit of a
// bench, or none of its units.
#[derive(Clone, Copy)]
pub enum Shown {
    Alone(Option<Levels>, u8),
    Unit(u8, Option<Levels>, u8),
    Nobody,
}

// An answer line.
#[derive(Clone, Copy)]
pub struct Line {
    pub number: u64,
    pub answer: Result<Option<Value>, Refusal>,
    pub shown: Shown,
}

// What a call of the peripheral answers, a value where it has one, and the next state.
pub type Outcome = Answered<Option<Value>>;

// The same of a line.
#[derive(Clone, Copy)]
pub struct Answer {
    pub answer: Result<Option<Value>, Refusal>,
    pub host: Host,
}

// What is written for a line: its answer line, its number and the window's report after it, or the signals after it.
#[derive(Clone, Copy)]
pub enum Output {
    Answers,
    Reports,
    Waves,
}

// What is kept of the lines played so far: the window, and where signals are written the time of the first that wasn't refused 4 or 5.
#[derive(Clone, Copy)]
pub struct Seen {
    pub window: Window,
    pub began: Option<Time>,
}

// The clock set of a trace.
pub fn trace_clocks() -> Clocks
    ensures { result ≡ trace_clocks }
{
    let start = Time {
        seconds: 0,
        fraction: 0,
    };
    Clocks::new(start, Frequencies::default()).clocks
}

// Its system clock.
pub fn trace_system() -> Domain
    ensures { result ≡ trace_clocks.system }
{
    let start = Time {
        seconds: 0,
        fraction: 0,
    };
    Domain {
        clock: Clock {
            start,
            numerator: Frequencies::default().main_hz,
            denominator: 1,
            ordinal: 0,
            fraction: 0,
        },
        running: true,
        held_at: start,
    }
}
