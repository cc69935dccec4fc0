// The sensor's calls over words as a static library, for the comparison. The names and signatures are those that C links, of the functions
// of the library sensor_calls, and may not change: a static library is a crate of its own.
#![tactic(auto)]

ghost use Rattle.std.specs.Prelude.{◌≡◌};
ghost use Rattle.sensor.specs.State.{abort_of, fresh_state};
ghost use Rattle.sensor_calls.specs.Given.{edge_at, state_at};
ghost use Rattle.sensor_calls.specs.Left.{asked_word, left_word, state_word};

// Before the first edge.
#[unsafe(no_mangle)]
pub extern "C" fn sensor_new() -> u64
    ensures { result ≡ state_word fresh_state }
{
    sensor_calls::sensor_new()
}

#[unsafe(no_mangle)]
pub extern "C" fn sensor_abort(state: u64) -> u64
    ensures { result ≡ state_word (abort_of (state_at state)) }
{
    sensor_calls::sensor_abort(state)
}

// The state that an edge leaves.
#[unsafe(no_mangle)]
pub extern "C" fn sensor_state(state: u64, given: u64) -> u64
    ensures { result ≡ state_word (edge_at state given).state }
{
    sensor_calls::sensor_state(state, given)
}

// All else that it leaves.
#[unsafe(no_mangle)]
pub extern "C" fn sensor_left(state: u64, given: u64) -> u64
    ensures { result ≡ left_word (edge_at state given) }
{
    sensor_calls::sensor_left(state, given)
}

// What can be asked of a state, and of an edge before it.
#[unsafe(no_mangle)]
pub extern "C" fn sensor_asked(state: u64, given: u64) -> u64
    ensures { result ≡ asked_word (state_at state) given }
{
    sensor_calls::sensor_asked(state, given)
}
