// What an edge is handed, of words.
ghost use Rattle.std.specs.Prelude.{◌≡◌};
ghost use Rattle.sensor_calls.specs.Given.{change_at, edge_at, outside_at, state_at, written_at};

use super::numbers::Phased;
use bus::Levels;
use sensor::{Change, Edge, Outside, Phase, State};

#[tactic(auto, unfolding(crate::specs::Given::state_at))]
pub(crate) fn state_of(word: u64) -> State
    ensures { result ≡ state_at word }
{
    let [phase, first, second, pointer, bits, shift, low, _] = word.to_le_bytes();
    State {
        phase: Phase::from(Phased {
            phase,
            first,
            second,
        }),
        pointer,
        bits,
        shift,
        low: low == 1,
    }
}

fn written_of(kind: u8, number: u8) -> Result<bool, u8>
    ensures { result ≡ written_at kind number }
{
    match kind {
        2 => Err(number),
        _ => Ok(kind == 1),
    }
}

pub(crate) fn change_of(flags: u8) -> Change
    ensures { result ≡ change_at flags }
{
    Change {
        previous: Levels {
            scl: flags & 1 != 0,
            sda: flags & 2 != 0,
        },
        current: Levels {
            scl: flags & 4 != 0,
            sda: flags & 8 != 0,
        },
    }
}

#[tactic(auto, unfolding(crate::specs::Given::outside_at))]
fn outside_of(given: u64) -> Outside
    ensures { result ≡ outside_at given }
{
    let [held, tx, flags, kind, number, present, byte, _] = given.to_le_bytes();
    Outside {
        blocked: flags & 16 != 0,
        quiet: flags & 32 != 0,
        written: written_of(kind, number),
        prepared: (present == 1).then_some(byte),
        tx: (held == 1).then_some(tx),
    }
}

#[tactic(auto, unfolding(crate::specs::Given::edge_at))]
pub(crate) fn edge_of(state: u64, given: u64) -> Edge
    ensures { result ≡ edge_at state given }
{
    let [_, _, flags, _, _, _, _, _] = given.to_le_bytes();
    state_of(state).i2c_pins(change_of(flags), outside_of(given))
}
