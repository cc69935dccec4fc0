// The two functions that are timed, each called with plain words once for an input: the answer is put into lent words, and the
// number of the refusal is returned, 0 for none.
ghost use Rattle.refusals.specs.Refusals.{number_ended};
ghost use Rattle.std.specs.Prelude.{◌≡◌};
ghost use Rattle.probe.specs.Timed.{clock_of, time_from, moment_in, count_in};
ghost use Rattle.time.specs.Clock.{after_of, edges_before_of};

use time::{Clock, Time};

fn clock_of(seconds: u64, fraction: u64, numerator: u64, denominator: u64) -> Clock
    ensures { result ≡ clock_of seconds fraction numerator denominator }
{
    Clock {
        start: Time { seconds, fraction },
        numerator,
        denominator,
        ordinal: 0,
        fraction: 0,
    }
}

// The time of an edge.
#[unsafe(no_mangle)]
pub extern "C" fn probe_after(
    seconds: u64,
    fraction: u64,
    numerator: u64,
    denominator: u64,
    edges: u64,
    out: &mut [u64; 2],
) -> u64
    ensures number { result ≡ number_ended (after_of (clock_of seconds fraction numerator denominator) edges) }
    ensures words { out.new ≡ moment_in (after_of (clock_of seconds fraction numerator denominator) edges) out.old }
{
    match clock_of(seconds, fraction, numerator, denominator).after(edges) {
        Ok(t) => {
            out[0] = t.seconds;
            out[1] = t.fraction;
            0
        }
        Err(refusal) => refusal.number() as u64,
    }
}

// The count before a limit.
#[unsafe(no_mangle)]
pub extern "C" fn probe_edges_before(
    seconds: u64,
    fraction: u64,
    numerator: u64,
    denominator: u64,
    limit_seconds: u64,
    limit_fraction: u64,
    out: &mut [u64; 1],
) -> u64
    ensures number { result ≡ number_ended (edges_before_of (clock_of seconds fraction numerator denominator) (time_from limit_seconds limit_fraction)) }
    ensures words { out.new ≡ count_in (edges_before_of (clock_of seconds fraction numerator denominator) (time_from limit_seconds limit_fraction)) out.old }
{
    let limit = Time {
        seconds: limit_seconds,
        fraction: limit_fraction,
    };
    match clock_of(seconds, fraction, numerator, denominator).edges_before(limit) {
        Ok(count) => {
            out[0] = count;
            0
        }
        Err(refusal) => refusal.number() as u64,
    }
}
