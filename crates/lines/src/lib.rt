// The lines of a trace: where they end, the call that one means, and which time may follow which. The script of a bench and the lines of a map
// are read by the same functions.
#![tactic(auto)]

ghost use Rattle.std.specs.Prelude.{◌≡◌};
ghost use Rattle.lines.specs.Lines.{may_follow};

pub mod each;
pub mod ends;
pub mod reading;

use time::Time;

// A call of the peripheral, as a verb with its operands.
#[derive(Clone, Copy)]
pub enum Verb {
    Read(u16),
    Write(u16, u8),
    Pins(bool, bool),
    Gate(bool),
    Visit,
    Deadline,
}

#[derive(Clone, Copy)]
pub struct Call {
    pub time: Time,
    pub verb: Verb,
}

// Whether a time may follow that of the last line that wasn't refused 4 or 5.
pub fn may_follow(last: Option<Time>, time: Time) -> bool
    ensures { result ≡ may_follow last time }
{
    last.is_none_or(|last| !time.before(last))
}
