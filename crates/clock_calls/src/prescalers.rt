// The prescalers.
ghost use Rattle.std.specs.Prelude.{◌≡◌, ◌%◌, ◌+◌, ◌≤◌, length};
ghost use Rattle.clock_calls.specs.Sets.{divider_by, prescaler_at};
ghost use Rattle.clock_calls.specs.Told.{Told};

use super::half_word;
use super::put::put;
use prescaler::{Divider, Prescaler, PrescalerS, PrescalerW};

pub(crate) fn call(number: u64, args: &[u64; 24], out: &mut [u64; 82]) -> u64
    ensures { Told 10 result out.old out.new }
{
    match number {
        10 => put(
            PrescalerS::crossings(phase_of(args[0]), args[2], half_word(args[1])),
            out,
        ),
        11 => put(
            prescaler_at::<13>(args, 0).ticks(args[17], half_word(args[16])),
            out,
        ),
        12 => put(
            prescaler_at::<13>(args, 0).high(args[17], half_word(args[16])),
            out,
        ),
        13 => put(
            prescaler_at::<13>(args, 0).parent_edge(args[17], half_word(args[16])),
            out,
        ),
        14 => put(
            PrescalerW::crossings(phase_of(args[0]), args[2], half_word(args[1])),
            out,
        ),
        15 => put(
            prescaler_at::<8>(args, 0).ticks(args[12], half_word(args[11])),
            out,
        ),
        16 => put(
            prescaler_at::<8>(args, 0).high(args[12], half_word(args[11])),
            out,
        ),
        _ => put(
            prescaler_at::<8>(args, 0).parent_edge(args[12], half_word(args[11])),
            out,
        ),
    }
}

pub(crate) fn divider_of(anchor: u64, phase: u64, running: u64) -> Divider
    ensures { result ≡ divider_by anchor phase running }
{
    Divider {
        anchor,
        phase: phase_of(phase),
        running: running != 0,
    }
}

fn phase_of(n: u64) -> u16
    ensures { result ≡ n % 65536 }
{
    (n % 65536) as u16
}

// The prescaler that the words are, from a place on: its divider, and what each stage emitted.
pub(crate) fn prescaler_at<const STAGES: usize>(words: &[u64], at: usize) -> Prescaler<STAGES>
    requires { at + 3 + STAGES ≤ length words.now }
    ensures { result ≡ prescaler_at STAGES words.now at }
{
    let mut emitted = [0; STAGES];
    emitted.copy_from_slice(&words[at + 3..at + 3 + STAGES]);
    Prescaler {
        divider: divider_of(words[at], words[at + 1], words[at + 2]),
        emitted,
    }
}
