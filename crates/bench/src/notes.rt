// Answer lines of a bench.
ghost use Rattle.std.specs.Prelude.{◌≡◌, length};
ghost use Rattle.answers.specs.Answers.{room_for};
ghost use Rattle.answers.specs.Puts.{Put};
ghost use Rattle.bench.specs.Bench.{told_text};
ghost use Rattle.bench.specs.Turns.{answer_by, note_by, shown_by, unplayed_by};
ghost use Rattle.bench.specs.Moments.{state_at};

use super::Bench;
use super::peripherals::Unit;
use answers::{Line, Outcome, Shown};
use iic::Iic;
use refusals::{Refusal, number_ended};

// What a line shows of a unit after its call.
fn shown_by(unit: Unit, state: Iic) -> Shown
    ensures { result ≡ shown_by unit.digit state }
{
    Shown::Unit(unit.digit, state.pins(), state.registers.status)
}

// The answer line of a unit's call.
pub(crate) fn answer(number: u64, unit: Unit, done: Outcome) -> Line
    ensures { result ≡ answer_by number unit.digit done }
{
    Line {
        number,
        answer: done.answer,
        shown: shown_by(unit, done.state),
    }
}

// That of a visit or a report, which has one only where it is refused.
pub(crate) fn note(unit: Unit, done: Outcome) -> Option<Line>
    ensures { result ≡ note_by unit.digit done }
{
    if number_ended(done.answer) == 0 {
        None
    } else {
        Some(answer(0, unit, done))
    }
}

// The answer line of a script line that isn't played.
pub(crate) fn unplayed(number: u64, refusal: Refusal, shown: Shown) -> Line
    ensures { result ≡ unplayed_by number refusal shown }
{
    Line {
        number,
        answer: Err(refusal),
        shown,
    }
}

// Writes an answer line, where there is one, from the first free byte on: the bytes written.
pub(crate) fn write(told: Option<Line>, out: &mut [u8]) -> usize
    ensures { Put out.old out.new 0 result (room_for (length out.old) (told_text told)) }
{
    match told {
        None => 0,
        Some(line) => line.write(out),
    }
}

impl Bench {
    // What a line shows of a unit as it is.
    pub(crate) fn shown(self, unit: Unit) -> Shown
        ensures { result ≡ shown_by unit.digit (state_at self unit.digit) }
    {
        shown_by(unit, self.state(unit))
    }
}
