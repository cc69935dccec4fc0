// One unit of a bench (document 02, (g)): the moment that it names next, and what it drives.
#![tactic(auto)]

ghost use Rattle.std.specs.Prelude.{◌≡◌, Ok, Some};
ghost use Rattle.units.specs.Units.{driven, is_at, is_named, is_present, names_by, names_of, released};

use bus::Levels;
use clocks::Clocks;
use iic::Iic;
use lines::may_follow;
use refusals::Refusal;
use time::Time;

// Neither line is pulled.
pub fn released() -> Levels
    ensures { result ≡ released }
{
    Levels {
        scl: true,
        sda: true,
    }
}

pub fn driven(pins: Option<Levels>) -> Levels
    ensures { result ≡ driven pins }
{
    match pins {
        None => released(),
        Some(levels) => levels,
    }
}

// Whether a time is the present moment.
pub fn is_present(present: Option<Time>, time: Time) -> bool
    ensures { result ≡ is_present present time }
{
    present.is_some_and(|now| now.same(time))
}

fn is_at(moment: Result<Option<Time>, Refusal>, time: Time) -> bool
    ensures { result ≡ is_at moment time }
{
    matches!(moment, Ok(Some(t)) if t.same(time))
}

fn names_time(refused: bool, present: Option<Time>, time: Time) -> Result<Option<Time>, Refusal>
    ensures { result ≡ names_by present refused (Ok (Some time)) }
{
    if may_follow(present, time) & !(refused & is_present(present, time)) {
        Ok(Some(time))
    } else {
        Ok(None)
    }
}

// The moment that a unit's deadline names, not before the present one, nor that one where its visit was refused.
#[tactic(auto, unfolding(crate::specs::Units::names_of))]
pub fn names(
    state: Iic,
    refused: bool,
    present: Option<Time>,
    clocks: Clocks,
) -> Result<Option<Time>, Refusal>
    ensures { result ≡ names_of clocks present refused state }
{
    match state.deadline(clocks) {
        Ok(Some(time)) => names_time(refused, present, time),
        Ok(None) | Err(_) => Ok(None),
    }
}

// Whether that is the moment that the bench is in.
#[tactic(auto, unfolding(crate::specs::Units::is_named))]
pub fn is_named(state: Iic, refused: bool, time: Time, clocks: Clocks) -> bool
    ensures { result ≡ is_named clocks time refused state }
{
    is_at(names(state, refused, Some(time), clocks), time)
}
