// The crate `time`.
ghost use Rattle.std.specs.Prelude.{◌≡◌};
ghost use Rattle.clock_calls.specs.Told.{Told};

use super::put::put;
use super::{clock_at, time_at};
use time::Clock;

pub(crate) fn call(number: u64, args: &[u64; 24], out: &mut [u64; 82]) -> u64
    ensures { Told 10 result out.old out.new }
{
    match number {
        0 => put(Ok(time_at(args, 0).before(time_at(args, 2))), out),
        1 => put(Ok(time_at(args, 0).same(time_at(args, 2))), out),
        2 => put(time_at(args, 0).checked_add(time_at(args, 2)), out),
        3 => put(time_at(args, 0).duration_since(time_at(args, 2)), out),
        4 => put(Ok(time_at(args, 0).next()), out),
        5 => put(Ok(time_at(args, 0).midway(time_at(args, 2))), out),
        6 => put(Clock::new(time_at(args, 0), args[2], args[3]), out),
        7 => put(Ok(clock_at(args, 0).has_zero()), out),
        8 => put(clock_at(args, 0).after(args[6]), out),
        _ => put(clock_at(args, 0).edges_before(time_at(args, 6)), out),
    }
}

// The clock with its start moved up.
pub(crate) fn advance(args: &[u64; 24], out: &mut [u64; 82]) -> u64
    ensures { Told 10 result out.old out.new }
{
    put(clock_at(args, 0).advance(args[6]), out)
}
