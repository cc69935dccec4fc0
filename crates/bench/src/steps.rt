// What a bench does, step by step.
ghost use Rattle.std.specs.Prelude.{◌≡◌};
ghost use Rattle.bench.specs.Bench.{end_of};
ghost use Rattle.bench.specs.Moments.{state_at};
ghost use Rattle.bench.specs.Steps.{goes, goes_to, look_of, play_now_of, play_of, reports_of, seek_of, step_of, to_reports, turned, turned_away, unmarked, visits_of};

use super::notes::unplayed;
use super::peripherals::{Peripherals, Unit};
use super::turns::Called;
use super::{Bench, Doing, Place, Step, Turn};
use answers::Shown;
use bus::Levels;
use clocks::Clocks;
use lines::Call;
use refusals::Refusal;
use script::{Unplayed, judge};
use time::Time;
use units::is_present;

// What a step finds: the free bytes for answer lines, what the script has next, and the number of that line.
#[derive(Clone, Copy)]
pub(crate) struct Found {
    pub(crate) free: usize,
    pub(crate) next: Option<Option<(u8, Call)>>,
    pub(crate) number: u64,
}

impl Bench {
    // Nothing is written, and no line answered.
    pub(crate) fn goes(self, doing: Doing) -> Step
        ensures { result ≡ goes doing self }
    {
        Step {
            bench: Bench {
                place: self.place.going(doing),
                ..self
            },
            told: None,
            answered: false,
        }
    }

    // A unit of it, over a clock set, with so many free bytes.
    fn called(self, unit: Unit, clocks: Clocks, free: usize) -> Called
        ensures { result ≡ record { unit = unit; state = state_at self unit.digit; place = self.place; clocks = clocks; free = free } }
    {
        Called {
            unit,
            state: self.state(unit),
            place: self.place,
            clocks,
            free,
        }
    }

    // A unit's turn is the bench's step.
    fn turned(mut self, unit: Unit, turn: Turn) -> Step
        ensures { result ≡ turned unit.digit turn self }
    {
        self.states[unit.digit as usize] = turn.state;
        Step {
            bench: Bench {
                place: turn.place,
                ..self
            },
            told: turn.told,
            answered: turn.answered,
        }
    }

    // A script line is answered that isn't played.
    #[tactic(auto, unfolding(crate::specs::Steps::turned_away))]
    fn turn_away(self, refusal: Refusal, shown: Shown, found: Found) -> Step
        ensures { result ≡ turned_away refusal shown found.number found.free self }
    {
        if found.free < 80 {
            return self.goes(Doing::Ended(Err(Refusal::NoRoom)));
        }
        Step {
            bench: self,
            told: Some(unplayed(found.number, refusal, shown)),
            answered: true,
        }
    }

    // No visit was refused in a moment that the bench comes to.
    #[tactic(auto, unfolding(crate::specs::Steps::unmarked))]
    fn unmarked(self) -> Bench
        ensures { result ≡ unmarked self }
    {
        Bench {
            place: Place {
                refused: [false; 4],
                ..self.place
            },
            ..self
        }
    }

    #[tactic(auto, unfolding(crate::specs::Steps::goes_to))]
    fn goes_to(self, present: Option<Time>, time: Time) -> Step
        ensures { result ≡ goes_to present time self }
    {
        let bench = if is_present(present, time) {
            self
        } else {
            self.unmarked()
        };
        bench.goes(Doing::Visits(time, 0))
    }

    // To the earliest moment; the bench ends where none is named.
    #[tactic(auto, unfolding(crate::specs::Steps::seek_of))]
    fn seek(
        self,
        present: Option<Time>,
        all: Peripherals,
        line: Result<Option<Time>, Refusal>,
    ) -> Step
        ensures { result ≡ seek_of all.clocks all.count present line self }
    {
        match self.moment(all, present, line) {
            Ok(Some(time)) => self.goes_to(present, time),
            Ok(None) | Err(_) => self.goes(Doing::Ended(Ok(()))),
        }
    }

    #[tactic(auto, unfolding(crate::specs::Steps::look_of))]
    fn look(self, present: Option<Time>, all: Peripherals, found: Found) -> Step
        ensures { result ≡ look_of all.clocks all.count found.free found.number found.next present self }
    {
        let Some(line) = found.next else {
            return self.seek(present, all, Ok(None));
        };
        match judge(line, self.place.last, all.count) {
            Ok((_, call)) => self.seek(present, all, Ok(Some(call.time))),
            Err(Unplayed::Unread) => self.turn_away(Refusal::Malformed, Shown::Nobody, found),
            Err(Unplayed::Early(u)) => self.turn_away(
                Refusal::NotLater,
                self.shown(Unit { digit: u }),
                found,
            ),
        }
    }

    #[tactic(auto, unfolding(crate::specs::Steps::visits_of))]
    fn visits(self, time: Time, u: u8, all: Peripherals, free: usize) -> Step
        ensures { result ≡ visits_of all.clocks all.count free time u self }
    {
        let Some(unit) = all.unit(u) else {
            return self.goes(Doing::Plays(time));
        };
        self.turned(unit, self.called(unit, all.clocks, free).visit(time))
    }

    fn to_reports(self, time: Time, all: Peripherals) -> Step
        ensures { result ≡ to_reports all.count time self }
    {
        self.goes(Doing::Reports(time, self.wires(all), 0))
    }

    // A script line, where it is of the present moment.
    #[tactic(auto, unfolding(crate::specs::Steps::play_now_of))]
    fn play_now(self, time: Time, unit: Unit, call: Call, all: Peripherals, found: Found) -> Step
        ensures { result ≡ play_now_of all.clocks all.count found.free found.number time unit.digit call self }
    {
        if call.time.same(time) {
            let called = self.called(unit, all.clocks, found.free);
            self.turned(unit, called.play_line(call, found.number))
        } else {
            self.to_reports(time, all)
        }
    }

    // Not one function with `look`: two of the four arms differ, and the two that don't are a line each.
    #[tactic(auto, unfolding(crate::specs::Steps::play_of))]
    fn play(self, time: Time, all: Peripherals, found: Found) -> Step
        ensures { result ≡ play_of all.clocks all.count found.free found.number found.next time self }
    {
        let Some(line) = found.next else {
            return self.to_reports(time, all);
        };
        match judge(line, self.place.last, all.count) {
            Ok((u, call)) => self.play_now(time, Unit { digit: u }, call, all, found),
            Err(Unplayed::Unread) => self.turn_away(Refusal::Malformed, Shown::Nobody, found),
            Err(Unplayed::Early(u)) => self.turn_away(
                Refusal::NotLater,
                self.shown(Unit { digit: u }),
                found,
            ),
        }
    }

    #[tactic(auto, unfolding(crate::specs::Steps::reports_of))]
    fn reports(self, time: Time, wires: Levels, u: u8, all: Peripherals, free: usize) -> Step
        ensures { result ≡ reports_of all.clocks all.count free time wires u self }
    {
        let Some(unit) = all.unit(u) else {
            return self.goes(Doing::Looks(Some(time)));
        };
        let called = self.called(unit, all.clocks, free);
        self.turned(unit, called.report(time, wires))
    }

    // The next step.
    #[tactic(auto, unfolding(crate::specs::Steps::step_of))]
    pub(crate) fn step(self, all: Peripherals, found: Found) -> Step
        ensures { result ≡ step_of all.clocks all.count found.free found.number found.next self }
    {
        let doing = self.place.doing;
        match doing {
            Doing::Looks(present) => self.look(present, all, found),
            Doing::Visits(time, u) => self.visits(time, u, all, found.free),
            Doing::Plays(time) => self.play(time, all, found),
            Doing::Reports(time, wires, u) => self.reports(time, wires, u, all, found.free),
            Doing::Ended(_) => self.goes(doing),
        }
    }
}

impl Doing {
    // Whether a refusal ended it.
    pub(crate) fn end(self) -> Result<(), Refusal>
        ensures { result ≡ end_of self }
    {
        match self {
            Doing::Ended(ended) => ended,
            _ => Ok(()),
        }
    }
}
