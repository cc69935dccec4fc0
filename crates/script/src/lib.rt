// The script of a bench (document 02, (g)): the call that a line means, and whether a bench plays it.
#![tactic(auto)]

ghost use Rattle.std.specs.Prelude.{◌≡◌};
ghost use Rattle.script.specs.Script.{is_scripted, called_of, line_of, judged_by};

use lines::reading::{digit, timed, verb};
use lines::{Call, Verb, may_follow};
use time::Time;

// Why a bench doesn't play a script line: malformed or of a unit that the bench lacks, refused 4; or its time, refused 5, of that unit.
#[derive(Clone, Copy, Debug, PartialEq, Eq)]
pub enum Unplayed {
    Unread,
    Early(u8),
}

// Whether a script may have the verb.
#[tactic(auto, unfolding(crate::specs::Script::is_scripted))]
fn is_scripted(verb: Verb) -> bool
    ensures { result ≡ is_scripted verb }
{
    matches!(verb, Verb::Read(_) | Verb::Write(_, _) | Verb::Gate(_))
}

// What follows the time: a unit, a tab, a verb with its operands.
#[tactic(auto, unfolding(crate::specs::Script::called_of, lines::specs::Reading::digit_in))]
fn called(rest: &[u8], time: Time) -> Option<(u8, Call)>
    ensures { result ≡ called_of time rest.now }
{
    let [unit, b'\t', ..] = *rest else {
        return None;
    };
    let unit = digit(unit, 10)?;
    let verb = verb(&rest[2..])?;
    is_scripted(verb).then_some((unit, Call { time, verb }))
}

// The call that a line means, and its unit.
#[tactic(auto, unfolding(crate::specs::Script::line_of))]
pub fn parse(line: &[u8]) -> Option<(u8, Call)>
    ensures { result ≡ line_of line.now }
{
    let (time, next) = timed(line)?;
    called(&line[next..], time)
}

// What a line is to a bench of so many peripherals, by the time of the last line that wasn't refused 4 or 5.
#[tactic(auto, unfolding(crate::specs::Script::judged_by, crate::specs::Script::judged_as))]
pub fn judge(
    line: Option<(u8, Call)>,
    last: Option<Time>,
    count: u8,
) -> Result<(u8, Call), Unplayed>
    ensures { result ≡ judged_by count line last }
{
    let Some((unit, call)) = line else {
        return Err(Unplayed::Unread);
    };
    if count <= unit {
        return Err(Unplayed::Unread);
    }
    if may_follow(last, call.time) {
        Ok((unit, call))
    } else {
        Err(Unplayed::Early(unit))
    }
}
