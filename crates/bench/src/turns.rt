// What a step does to the unit that it calls.
ghost use Rattle.std.specs.Prelude.{◌≡◌, ◌<◌, ◌≤◌, Err};
ghost use Rattle.answers.specs.Calls.{outcome_of};
ghost use Rattle.bench.specs.Turns.{noted_by, passed_by, play_line_of, played_by, report_of, set_doing, visit_due_of, visit_of, visited_place};
ghost use Rattle.bench.specs.Moments.{mark_of};
ghost use Rattle.bench.specs.declared.Doing.TheVariants.{Ended};
ghost use Rattle.refusals.specs.declared.Refusal.TheVariants.{NoRoom};

use super::notes::{answer, note};
use super::peripherals::Unit;
use super::{Doing, Place, Turn};
use answers::calls::outcome_in;
use answers::{Outcome, Value};
use bus::Levels;
use clocks::Clocks;
use iic::Iic;
use lines::{Call, Verb};
use refusals::{Refusal, number_ended};
use time::Time;
use units::is_named;

impl Place {
    pub(crate) fn going(self, doing: Doing) -> Place
        ensures { result ≡ set_doing doing self }
    {
        Place { doing, ..self }
    }

    // Whether the unit's visit in the present moment was refused.
    pub(crate) fn mark(self, unit: Unit) -> bool
        ensures { result ≡ mark_of self unit.digit }
    {
        self.refused[unit.digit as usize]
    }

    // After a visit.
    fn visited(mut self, time: Time, unit: Unit, answer: Result<Option<Value>, Refusal>) -> Place
        requires { self.visits < 65536 }
        ensures { result ≡ visited_place time unit.digit answer self }
    {
        self.refused[unit.digit as usize] = number_ended(answer) != 0;
        Place {
            doing: Doing::Visits(time, unit.digit + 1),
            visits: self.visits + 1,
            ..self
        }
    }
}

// A unit that a step may call: its state, where the bench stands, the clock set and the free bytes for its answer line.
#[derive(Clone, Copy)]
pub(crate) struct Called {
    pub(crate) unit: Unit,
    pub(crate) state: Iic,
    pub(crate) place: Place,
    pub(crate) clocks: Clocks,
    pub(crate) free: usize,
}

// After a visit or a report.
fn noted(unit: Unit, done: Outcome, place: Place) -> Turn
    ensures { result ≡ noted_by unit.digit done place }
{
    Turn {
        state: done.state,
        place,
        told: note(unit, done),
        answered: false,
    }
}

// After a script line.
fn played(number: u64, unit: Unit, time: Time, done: Outcome, place: Place) -> Turn
    ensures { result ≡ played_by time number unit.digit done place }
{
    Turn {
        state: done.state,
        place: Place {
            last: Some(time),
            ..place
        },
        told: Some(answer(number, unit, done)),
        answered: true,
    }
}

impl Called {
    // It isn't called.
    fn passed(self, doing: Doing) -> Turn
        ensures { result ≡ passed_by doing self.place self.state }
    {
        Turn {
            state: self.state,
            place: self.place.going(doing),
            told: None,
            answered: false,
        }
    }

    // What comes of it where its answer line has room; else the bench ends.
    fn with_room<F: FnOnce() -> Turn>(self, turn: F) -> Turn
        requires { F.IsAlwaysCallable turn }
        ensures full { self.free < 80 → result ≡ passed_by (Ended (Err NoRoom)) self.place self.state }
        ensures fits { 80 ≤ self.free → F.post turn result }
    {
        if self.free < 80 {
            return self.passed(Doing::Ended(Err(Refusal::NoRoom)));
        }
        turn()
    }

    // What a call of it leaves.
    fn call(self, verb: Verb, time: Time) -> Outcome
        ensures { result ≡ outcome_of self.clocks time self.state verb }
    {
        outcome_in(self.clocks, verb, time, self.state)
    }

    // A visit that is due.
    #[tactic(auto, unfolding(crate::specs::Turns::visit_due_of))]
    fn visit_due(self, time: Time) -> Turn
        ensures { result ≡ visit_due_of self.clocks self.free time self.unit.digit self.place self.state }
    {
        self.with_room(|| {
            if 65536 <= self.place.visits {
                return self.passed(Doing::Ended(Err(Refusal::Visits)));
            }
            let done = self.call(Verb::Visit, time);
            let place = self.place.visited(time, self.unit, done.answer);
            noted(self.unit, done, place)
        })
    }

    // Its turn to be visited.
    #[tactic(auto, unfolding(crate::specs::Turns::visit_of))]
    pub(crate) fn visit(self, time: Time) -> Turn
        ensures { result ≡ visit_of self.clocks self.free time self.unit.digit self.place self.state }
    {
        if is_named(self.state, self.place.mark(self.unit), time, self.clocks) {
            self.visit_due(time)
        } else {
            self.passed(Doing::Visits(time, self.unit.digit + 1))
        }
    }

    // Its script line.
    #[tactic(auto, unfolding(crate::specs::Turns::play_line_of))]
    pub(crate) fn play_line(self, call: Call, number: u64) -> Turn
        ensures { result ≡ play_line_of self.clocks self.free number self.unit.digit call self.place self.state }
    {
        self.with_room(|| {
            let done = self.call(call.verb, call.time);
            played(number, self.unit, call.time, done, self.place)
        })
    }

    // The report of the wires' levels to it.
    #[tactic(auto, unfolding(crate::specs::Turns::report_of))]
    pub(crate) fn report(self, time: Time, wires: Levels) -> Turn
        ensures { result ≡ report_of self.clocks self.free time wires self.unit.digit self.place self.state }
    {
        let doing = Doing::Reports(time, wires, self.unit.digit + 1);
        self.with_room(|| {
            let done = self.call(Verb::Pins(wires.scl, wires.sda), time);
            noted(self.unit, done, self.place.going(doing))
        })
    }
}
