// The waits for edges of a tap, and the waits, half waits too, that a state may hold.
ghost use Rattle.std.specs.Prelude.{◌≡◌};
ghost use Rattle.clock_calls.specs.Told.{Told, Written};
ghost use Rattle.clock_calls.specs.Waits.{half_by, state_by, wait_by};

use super::put::{put, put_waited};
use super::sets::clocks_of;
use super::{tap_at, tap_of, time_at};
use clocks::wait::{ClockWait, WaitState};
use time::Time;
use waits::HalfWait;

pub(crate) fn call(number: u64, set: &[u64; 81], args: &[u64; 24], out: &mut [u64; 82]) -> u64
    ensures { Told 10 result out.old out.new }
{
    let wait = wait_at(args);
    let clocks = clocks_of(set);
    match number {
        39 => put(
            ClockWait::after(time_at(args, 2), args[4], tap_at(args, 0), clocks),
            out,
        ),
        40 => put(wait.deadline(clocks), out),
        41 => put(wait.validate(), out),
        42 => put(Ok(wait.uses(tap_at(args, 5))), out),
        43 => put(wait.later_edge(args[5], clocks), out),
        _ => put(wait.edges_before(time_at(args, 5), clocks), out),
    }
}

// A call that changes a wait, which is written where it is refused, too. Its number comes through `probe_turn` of the C interface.
pub fn turn(number: u64, set: &[u64; 81], args: &[u64; 24], out: &mut [u64; 82]) -> u64
    ensures { Written 10 result out.old out.new }
{
    let wait = wait_at(args);
    let clocks = clocks_of(set);
    match number {
        46 => put_waited(wait.pause(time_at(args, 5), clocks), out),
        47 => put_waited(wait.resume(time_at(args, 5), clocks), out),
        _ => put_waited(wait.select(time_at(args, 7), tap_at(args, 5), clocks), out),
    }
}

// A wait that may be absent: whether it is there, its tap, then the number of its state, a count and a fraction.
pub fn wait_by(
    present: u64,
    source: u64,
    divide: u64,
    state: u64,
    count: u64,
    fraction: u64,
) -> Option<ClockWait>
    ensures { result ≡ wait_by present source divide state count fraction }
{
    let absent = present == 0;
    if absent {
        return None;
    }
    Some(ClockWait {
        tap: tap_of(source, divide),
        state: state_of(state, count, fraction),
    })
}

// A half wait that may be absent: whether it is there, its count, and whether it is paused.
pub fn half_by(present: u64, count: u64, paused: u64) -> Option<HalfWait>
    ensures { result ≡ half_by present count paused }
{
    let absent = present == 0;
    if absent {
        return None;
    }
    Some(HalfWait {
        count,
        paused: paused != 0,
    })
}

// No TryFrom: a number that stands for no state counts as the last.
#[tactic(auto, unfolding(crate::specs::Waits::state_by))]
fn state_of(number: u64, count: u64, fraction: u64) -> WaitState
    ensures { result ≡ state_by number count fraction }
{
    match number {
        0 => WaitState::Running(count),
        1 => WaitState::Paused(count),
        _ => WaitState::Ready(Time {
            seconds: count,
            fraction,
        }),
    }
}

fn wait_at(args: &[u64; 24]) -> ClockWait {
    ClockWait {
        tap: tap_at(args, 0),
        state: state_of(args[2], args[3], args[4]),
    }
}
