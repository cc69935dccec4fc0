// The port's functions over times, clocks, taps, clock sets and waits, on words, for the comparison with the Rust, each by a
// number. `compare/words/src/calls.rs` has the numbers, `compare/words/src/layout.rs` says where what lies. A call returns the
// number of its refusal, 0 for none, and an answer starts with it.
#![tactic(auto)]

ghost use Rattle.std.specs.Prelude.{◌≡◌, ◌%◌, ◌+◌, ◌≤◌, length};
ghost use Rattle.clock_calls.specs.Sets.{clock_at};
ghost use Rattle.clock_calls.specs.Told.{Told, time_at};
ghost use Rattle.clock_calls.specs.Waits.{source_by, tap_by};
ghost use Rattle.clocks.specs.Tap.{source_number};

pub mod clock_waits;
pub mod domains;
pub mod instants;
pub mod prescalers;
pub mod put;
pub mod sets;
pub mod taps;

use clocks::tap::{Source, Tap};
use time::{Clock, Time};

// A call that is no peripheral's. Its number comes through `probe_answer` of the C interface, so here and in each `call` a switch finds it.
pub fn answer(number: u64, set: &[u64; 81], args: &[u64; 24], out: &mut [u64; 82]) -> u64
    ensures { Told 10 result out.old out.new }
{
    if number < 10 {
        return instants::call(number, args, out);
    }
    if number < 18 {
        return prescalers::call(number, args, out);
    }
    if number < 23 {
        return domains::call(number, args, out);
    }
    if number < 31 {
        return taps::call(number, args, out);
    }
    if number < 39 {
        return sets::call(number, set, args, out);
    }
    if number == 49 {
        return instants::advance(args, out);
    }
    clock_waits::call(number, set, args, out)
}

// The time that the arguments begin with.
pub fn first_time(args: &[u64; 24]) -> Time
    ensures { result ≡ time_at args.now 0 }
{
    time_at(args, 0)
}

fn time_at(words: &[u64], at: usize) -> Time
    requires { at + 2 ≤ length words.now }
    ensures { result ≡ time_at words.now at }
{
    Time {
        seconds: words[at],
        fraction: words[at + 1],
    }
}

fn clock_at(words: &[u64], at: usize) -> Clock
    requires { at + 6 ≤ length words.now }
    ensures { result ≡ clock_at words.now at }
{
    Clock {
        start: time_at(words, at),
        numerator: words[at + 2],
        denominator: words[at + 3],
        ordinal: words[at + 4],
        fraction: words[at + 5],
    }
}

// No TryFrom: a number that stands for no source counts as the last; and an impl of From or TryFrom can stand in the crate of `Source` alone.
#[tactic(auto, unfolding(crate::specs::Waits::source_by))]
fn source_of(n: u64) -> Source
    ensures { result ≡ source_by n }
{
    match n {
        0 => Source::System,
        1 => Source::Cpu,
        2 => Source::Watch,
        3 => Source::OnChip,
        4 => Source::Oscillator,
        _ => Source::Subclock,
    }
}

// The number that stands for a source.
pub fn number_of(source: Source) -> u64
    ensures { result ≡ source_number source }
{
    match source {
        Source::System => 0,
        Source::Cpu => 1,
        Source::Watch => 2,
        Source::OnChip => 3,
        Source::Oscillator => 4,
        Source::Subclock => 5,
    }
}

fn half_word(n: u64) -> u32
    ensures { result ≡ n % 0x1_0000_0000 }
{
    (n % 0x1_0000_0000) as u32
}

fn tap_of(source: u64, divide: u64) -> Tap
    ensures { result ≡ tap_by source divide }
{
    Tap {
        source: source_of(source),
        divide: half_word(divide),
    }
}

fn tap_at(args: &[u64; 24], at: usize) -> Tap
    requires { at ≤ 22 }
{
    tap_of(args[at], args[at + 1])
}
