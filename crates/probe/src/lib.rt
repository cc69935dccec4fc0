// What a Rust program calls of the port, for the comparison and the benchmark. What it calls returns the number of its refusal,
// 0 for none.
#![tactic(auto)]

ghost use Rattle.std.specs.Prelude.{◌≡◌, get_or};
ghost use Rattle.calls.specs.States.{Begins, rates_at, register_words};
ghost use Rattle.clock_calls.specs.Sets.{clocks_at};
ghost use Rattle.clock_calls.specs.Told.{Told, Written, time_at, frequencies_at};
ghost use Rattle.clocks.specs.Clocks.{new_clocks};
ghost use Rattle.clocks.specs.Moves.{move_system};
ghost use Rattle.iic.specs.State.{default_iic, with_rates_of};
ghost use Rattle.refusals.specs.Refusals.{number_ended};

pub mod bench;

// A call that is no peripheral's.
#[unsafe(no_mangle)]
pub extern "C" fn probe_answer(
    number: u64,
    set: &[u64; 81],
    args: &[u64; 24],
    out: &mut [u64; 82],
) -> u64
    ensures { Told 10 result out.old out.new }
{
    clock_calls::answer(number, set, args, out)
}

// A new clock set.
#[unsafe(no_mangle)]
pub extern "C" fn probe_new_clocks(args: &[u64; 24], out: &mut [u64; 82]) -> u64
    ensures { result ≡ number_ended (new_clocks (time_at args.now 0) (frequencies_at args.now)).ended }
{
    clock_calls::taps::new_clocks(args, out)
}

// The set with the start of its system clock moved up by as many edges as the first of `args`, or as it was where that is refused.
#[unsafe(no_mangle)]
pub extern "C" fn probe_advance_system(
    set: &[u64; 81],
    args: &[u64; 24],
    out: &mut [u64; 82],
) -> u64
    ensures { result ≡ number_ended (move_system (get_or args.now 0 0) (clocks_at set.now)).ended }
{
    clock_calls::sets::advance(clock_calls::sets::clocks_of(set), args[0], out)
}

// A call that changes a wait.
#[unsafe(no_mangle)]
pub extern "C" fn probe_turn(
    number: u64,
    set: &[u64; 81],
    args: &[u64; 24],
    out: &mut [u64; 82],
) -> u64
    ensures { Written 10 result out.old out.new }
{
    clock_calls::clock_waits::turn(number, set, args, out)
}

// The peripheral's state before the first call.
#[unsafe(no_mangle)]
pub extern "C" fn probe_iic_fresh(state: &mut [u64; 75])
    ensures { Begins (register_words default_iic.registers) state.new }
{
    calls::peripheral::fresh(state)
}

// The same with the rate set that the state's words hold, and 14 where it is refused.
#[unsafe(no_mangle)]
pub extern "C" fn probe_iic_with_rates(state: &mut [u64; 75]) -> u64
    ensures refusal { result ≡ number_ended (with_rates_of (rates_at state.old)).answer }
    ensures registers { Begins (register_words default_iic.registers) state.new }
{
    calls::peripheral::with_rates(state)
}

// A call of the peripheral that can change its state.
#[unsafe(no_mangle)]
pub extern "C" fn probe_iic_act(
    number: u64,
    state: &mut [u64; 75],
    set: &[u64; 81],
    args: &[u64; 24],
    out: &mut [u64; 82],
) -> u64
    ensures { Told 10 result out.old out.new }
{
    calls::peripheral::act(number, state, set, args, out)
}

#[unsafe(no_mangle)]
pub extern "C" fn probe_iic_deadline(state: &[u64; 75], set: &[u64; 81], out: &mut [u64; 82]) -> u64
    ensures { Told 10 result out.old out.new }
{
    calls::peripheral::deadline(state, set, out)
}

#[unsafe(no_mangle)]
pub extern "C" fn probe_iic_validate(
    state: &[u64; 75],
    args: &[u64; 24],
    out: &mut [u64; 82],
) -> u64
    ensures { Told 10 result out.old out.new }
{
    calls::peripheral::validate(state, args, out)
}

// What else can be asked of the peripheral.
#[unsafe(no_mangle)]
pub extern "C" fn probe_iic_observe(state: &[u64; 75], args: &[u64; 24], out: &mut [u64; 82]) -> u64
    ensures number { result ≡ 0 }
    ensures told { Told 14 result out.old out.new }
{
    calls::peripheral::observe(state, args, out)
}
