// The calls by number over words as a static library, for the comparison. Each is `probe`'s once more, under its C name and signature.
#![tactic(auto)]

ghost use Rattle.std.specs.Prelude.{◌≡◌, get_or};
ghost use Rattle.calls.specs.States.{Begins, rates_at, register_words};
ghost use Rattle.clock_calls.specs.Sets.{clocks_at};
ghost use Rattle.clock_calls.specs.Told.{Told, Written, time_at, frequencies_at};
ghost use Rattle.clocks.specs.Clocks.{new_clocks};
ghost use Rattle.clocks.specs.Moves.{move_system};
ghost use Rattle.iic.specs.State.{default_iic, with_rates_of};
ghost use Rattle.refusals.specs.Refusals.{number_ended};
ghost use Rattle.probe.specs.Timed.{clock_of, time_from, moment_in, count_in};
ghost use Rattle.time.specs.Clock.{after_of, edges_before_of};

// A call that is no peripheral's.
#[unsafe(no_mangle)]
pub extern "C" fn probe_answer(
    number: u64,
    set: &[u64; 81],
    args: &[u64; 24],
    out: &mut [u64; 82],
) -> u64
    ensures { Told 10 result out.old out.new }
{
    probe::probe_answer(number, set, args, out)
}

// A new clock set.
#[unsafe(no_mangle)]
pub extern "C" fn probe_new_clocks(args: &[u64; 24], out: &mut [u64; 82]) -> u64
    ensures { result ≡ number_ended (new_clocks (time_at args.now 0) (frequencies_at args.now)).ended }
{
    probe::probe_new_clocks(args, out)
}

// The set with the start of its system clock moved up by as many edges as the first of `args`, or as it was where that is refused.
#[unsafe(no_mangle)]
pub extern "C" fn probe_advance_system(
    set: &[u64; 81],
    args: &[u64; 24],
    out: &mut [u64; 82],
) -> u64
    ensures { result ≡ number_ended (move_system (get_or args.now 0 0) (clocks_at set.now)).ended }
{
    probe::probe_advance_system(set, args, out)
}

// A call that changes a wait.
#[unsafe(no_mangle)]
pub extern "C" fn probe_turn(
    number: u64,
    set: &[u64; 81],
    args: &[u64; 24],
    out: &mut [u64; 82],
) -> u64
    ensures { Written 10 result out.old out.new }
{
    probe::probe_turn(number, set, args, out)
}

// The peripheral's state before the first call.
#[unsafe(no_mangle)]
pub extern "C" fn probe_iic_fresh(state: &mut [u64; 75])
    ensures { Begins (register_words default_iic.registers) state.new }
{
    probe::probe_iic_fresh(state)
}

// The same with the rate set that the state's words hold, and 14 where it is refused.
#[unsafe(no_mangle)]
pub extern "C" fn probe_iic_with_rates(state: &mut [u64; 75]) -> u64
    ensures refusal { result ≡ number_ended (with_rates_of (rates_at state.old)).answer }
    ensures registers { Begins (register_words default_iic.registers) state.new }
{
    probe::probe_iic_with_rates(state)
}

// A call of the peripheral that can change its state.
#[unsafe(no_mangle)]
pub extern "C" fn probe_iic_act(
    number: u64,
    state: &mut [u64; 75],
    set: &[u64; 81],
    args: &[u64; 24],
    out: &mut [u64; 82],
) -> u64
    ensures { Told 10 result out.old out.new }
{
    probe::probe_iic_act(number, state, set, args, out)
}

#[unsafe(no_mangle)]
pub extern "C" fn probe_iic_deadline(state: &[u64; 75], set: &[u64; 81], out: &mut [u64; 82]) -> u64
    ensures { Told 10 result out.old out.new }
{
    probe::probe_iic_deadline(state, set, out)
}

#[unsafe(no_mangle)]
pub extern "C" fn probe_iic_validate(
    state: &[u64; 75],
    args: &[u64; 24],
    out: &mut [u64; 82],
) -> u64
    ensures { Told 10 result out.old out.new }
{
    probe::probe_iic_validate(state, args, out)
}

// What else can be asked of the peripheral.
#[unsafe(no_mangle)]
pub extern "C" fn probe_iic_observe(state: &[u64; 75], args: &[u64; 24], out: &mut [u64; 82]) -> u64
    ensures number { result ≡ 0 }
    ensures told { Told 14 result out.old out.new }
{
    probe::probe_iic_observe(state, args, out)
}

// The time of an edge.
#[unsafe(no_mangle)]
pub extern "C" fn probe_after(
    seconds: u64,
    fraction: u64,
    numerator: u64,
    denominator: u64,
    edges: u64,
    out: &mut [u64; 2],
) -> u64
    ensures number { result ≡ number_ended (after_of (clock_of seconds fraction numerator denominator) edges) }
    ensures words { out.new ≡ moment_in (after_of (clock_of seconds fraction numerator denominator) edges) out.old }
{
    probe::bench::probe_after(seconds, fraction, numerator, denominator, edges, out)
}

// The count before a limit.
#[unsafe(no_mangle)]
pub extern "C" fn probe_edges_before(
    seconds: u64,
    fraction: u64,
    numerator: u64,
    denominator: u64,
    limit_seconds: u64,
    limit_fraction: u64,
    out: &mut [u64; 1],
) -> u64
    ensures number { result ≡ number_ended (edges_before_of (clock_of seconds fraction numerator denominator) (time_from limit_seconds limit_fraction)) }
    ensures words { out.new ≡ count_in (edges_before_of (clock_of seconds fraction numerator denominator) (time_from limit_seconds limit_fraction)) out.old }
{
    probe::bench::probe_edges_before(
        seconds,
        fraction,
        numerator,
        denominator,
        limit_seconds,
        limit_fraction,
        out,
    )
}
