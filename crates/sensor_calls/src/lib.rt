// The sensor's calls on words, for the comparison with the Rust. A word holds eight bytes; `compare/words/src/sensor.rs` says where
// what lies.
#![tactic(auto)]

mod given;
mod left;
mod numbers;

ghost use Rattle.std.specs.Prelude.{◌≡◌};
ghost use Rattle.sensor.specs.State.{abort_of, fresh_state};
ghost use Rattle.sensor_calls.specs.Given.{edge_at, state_at};
ghost use Rattle.sensor_calls.specs.Left.{asked_word, left_word, state_word};

use given::{edge_of, state_of};
use left::{asked_word, left_word, state_word};
use sensor::State;

// Before the first edge.
#[unsafe(no_mangle)]
pub extern "C" fn sensor_new() -> u64
    ensures { result ≡ state_word fresh_state }
{
    state_word(State::new())
}

#[unsafe(no_mangle)]
pub extern "C" fn sensor_abort(state: u64) -> u64
    ensures { result ≡ state_word (abort_of (state_at state)) }
{
    state_word(state_of(state).abort())
}

// The state that an edge leaves.
#[unsafe(no_mangle)]
pub extern "C" fn sensor_state(state: u64, given: u64) -> u64
    ensures { result ≡ state_word (edge_at state given).state }
{
    let edge = edge_of(state, given);
    let left = edge.state;
    state_word(left)
}

// All else that it leaves.
#[unsafe(no_mangle)]
pub extern "C" fn sensor_left(state: u64, given: u64) -> u64
    ensures { result ≡ left_word (edge_at state given) }
{
    left_word(edge_of(state, given))
}

// What can be asked of a state, and of an edge before it.
#[unsafe(no_mangle)]
pub extern "C" fn sensor_asked(state: u64, given: u64) -> u64
    ensures { result ≡ asked_word (state_at state) given }
{
    asked_word(state_of(state), given)
}
