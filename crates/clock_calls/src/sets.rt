// The clock sets.
ghost use Rattle.std.specs.Prelude.{◌+◌, ◌≤◌, ◌≡◌};
ghost use Rattle.clock_calls.specs.Sets.{clocks_at};
ghost use Rattle.clock_calls.specs.Told.{Told};
ghost use Rattle.clocks.specs.Moves.{move_system};
ghost use Rattle.refusals.specs.Refusals.{number_ended};

use super::domains::domain_at;
use super::prescalers::prescaler_at;
use super::put::{nine_of, put, put_nine};
use super::{tap_at, time_at};
use clocks::Clocks;
use prescaler::Prescaler;
use refusals::number_ended;

pub(crate) fn call(number: u64, set: &[u64; 81], args: &[u64; 24], out: &mut [u64; 82]) -> u64
    ensures { Told 10 result out.old out.new }
{
    let clocks = clocks_of(set);
    match number {
        31 => put(Ok(clocks.has_zero()), out),
        32 => put(clocks.ticks(time_at(args, 2), tap_at(args, 0)), out),
        33 => put(clocks.edge(args[2], tap_at(args, 0)), out),
        34 => put(
            clocks.after(time_at(args, 2), args[4], tap_at(args, 0)),
            out,
        ),
        35 => put(clocks.available(tap_at(args, 0)), out),
        36 => put(clocks.high(time_at(args, 2), tap_at(args, 0)), out),
        37 => put(clocks.system_half_ticks(time_at(args, 0)), out),
        _ => put(clocks.system_half_edge(args[0]), out),
    }
}

// A set with the start of its system clock moved up, which is written as it was where the move is refused.
pub fn advance(clocks: Clocks, edges: u64, out: &mut [u64; 82]) -> u64
    ensures { result ≡ number_ended (move_system edges clocks).ended }
{
    let moved = clocks.advance_system(edges);
    let number = number_ended(moved.ended) as u64;
    out[0] = number;
    put_clocks(moved.clocks, out);
    number
}

// The clock set that the words are.
#[tactic(auto, unfolding(crate::specs::Sets::clocks_at))]
pub fn clocks_of(set: &[u64; 81]) -> Clocks
    ensures { result ≡ clocks_at set.now }
{
    Clocks {
        system: domain_at(set, 0),
        cpu: domain_at(set, 9),
        watch: domain_at(set, 18),
        on_chip: domain_at(set, 27),
        oscillator: domain_at(set, 36),
        subclock: domain_at(set, 45),
        prescaler_s: prescaler_at(set, 54),
        prescaler_w: prescaler_at(set, 70),
    }
}

fn put_prescaler<const STAGES: usize>(p: Prescaler<STAGES>, out: &mut [u64; 82], at: usize)
    requires { at + 3 + STAGES ≤ 82 }
{
    out[at] = p.divider.anchor;
    out[at + 1] = p.divider.phase as u64;
    out[at + 2] = p.divider.running as u64;
    out[at + 3..at + 3 + STAGES].copy_from_slice(&p.emitted);
}

pub(crate) fn put_clocks(clocks: Clocks, out: &mut [u64; 82]) {
    put_nine(nine_of(clocks.system), out, 1);
    put_nine(nine_of(clocks.cpu), out, 10);
    put_nine(nine_of(clocks.watch), out, 19);
    put_nine(nine_of(clocks.on_chip), out, 28);
    put_nine(nine_of(clocks.oscillator), out, 37);
    put_nine(nine_of(clocks.subclock), out, 46);
    put_prescaler(clocks.prescaler_s, out, 55);
    put_prescaler(clocks.prescaler_w, out, 71);
}
