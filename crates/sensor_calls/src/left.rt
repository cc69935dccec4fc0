// What an edge leaves, and what is asked before it, as words.
ghost use Rattle.std.specs.Prelude.{◌≡◌};
ghost use Rattle.sensor_calls.specs.Left.{asked_word, left_word, state_word};

use super::given::change_of;
use super::numbers::{Asked, Phased};
use sensor::{Edge, State};

#[tactic(auto, unfolding(crate::specs::Bytes::packed))]
pub(crate) fn state_word(s: State) -> u64
    ensures { result ≡ state_word s }
{
    let Phased {
        phase,
        first,
        second,
    } = Phased::from(s.phase);
    u64::from_le_bytes([
        phase,
        first,
        second,
        s.pointer,
        s.bits,
        s.shift,
        u8::from(s.low),
        0,
    ])
}

#[tactic(auto, unfolding(crate::specs::Bytes::packed))]
pub(crate) fn left_word(e: Edge) -> u64
    ensures { result ≡ left_word e }
{
    let (answer, refusal) = match e.answer {
        Ok(changed) => (u8::from(changed), 0),
        Err(number) => (2, number),
    };
    let Asked {
        number,
        pointer,
        byte,
    } = Asked::from(e.effect);
    u64::from_le_bytes([
        answer,
        refusal,
        number,
        pointer,
        byte,
        u8::from(e.cleared),
        u8::from(e.tx.is_some()),
        e.tx.unwrap_or(0),
    ])
}

#[tactic(auto, unfolding(crate::specs::Bytes::packed))]
pub(crate) fn asked_word(s: State, given: u64) -> u64
    ensures { result ≡ asked_word s given }
{
    let [_, _, flags, _, _, _, _, _] = given.to_le_bytes();
    let change = change_of(flags);
    let blocked = flags & 16 != 0;
    let quiet = flags & 32 != 0;
    let Asked {
        number,
        pointer,
        byte,
    } = Asked::from(s.effect_at(change, blocked, quiet));
    u64::from_le_bytes([
        u8::from(s.consumes_conversion(change, blocked, quiet)),
        number,
        pointer,
        byte,
        s.effect_edges(),
        u8::from(s.idle()),
        u8::from(s.validate(true)),
        u8::from(s.validate(false)),
    ])
}
