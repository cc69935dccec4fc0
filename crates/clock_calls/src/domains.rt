// The domains.
ghost use Rattle.std.specs.Prelude.{◌≡◌, ◌+◌, ◌≤◌, length};
ghost use Rattle.clock_calls.specs.Sets.{domain_at};
ghost use Rattle.clock_calls.specs.Told.{Told};

use super::put::put;
use super::{clock_at, time_at};
use domain::Domain;

pub(crate) fn call(number: u64, args: &[u64; 24], out: &mut [u64; 82]) -> u64
    ensures { Told 10 result out.old out.new }
{
    match number {
        18 => put(Domain::new(time_at(args, 0), args[2], args[3]), out),
        19 => put(domain_at(args, 0).time(time_at(args, 9)), out),
        20 => put(domain_at(args, 0).ticks(time_at(args, 9)), out),
        21 => put(domain_at(args, 0).half_ticks(time_at(args, 9)), out),
        _ => put(domain_at(args, 0).half_edge(args[9]), out),
    }
}

// The domain that the words are, from a place on.
#[tactic(auto, unfolding(crate::specs::Sets::domain_at))]
pub(crate) fn domain_at(words: &[u64], at: usize) -> Domain
    requires { at + 9 ≤ length words.now }
    ensures { result ≡ domain_at words.now at }
{
    Domain {
        clock: clock_at(words, at),
        running: words[at + 6] != 0,
        held_at: time_at(words, at + 7),
    }
}
