// The taps, the default frequencies and new clock sets.
ghost use Rattle.std.specs.Prelude.{◌≡◌};
ghost use Rattle.clock_calls.specs.Told.{Told, time_at, frequencies_at};
ghost use Rattle.clocks.specs.Clocks.{new_clocks};
ghost use Rattle.refusals.specs.Refusals.{number_ended};

use super::put::put;
use super::sets::put_clocks;
use super::{half_word, tap_at, time_at};
use clocks::tap::Tap;
use clocks::{Clocks, Frequencies};
use refusals::number_ended;

pub(crate) fn call(number: u64, args: &[u64; 24], out: &mut [u64; 82]) -> u64
    ensures { Told 10 result out.old out.new }
{
    match number {
        23 => put(Ok(Tap::cpu()), out),
        24 => put(Ok(Tap::system(half_word(args[0]))), out),
        25 => put(Ok(Tap::watch(half_word(args[0]))), out),
        26 => put(Ok(Tap::on_chip(half_word(args[0]))), out),
        27 => put(Ok(Tap::oscillator()), out),
        28 => put(Ok(Tap::subclock()), out),
        29 => put(tap_at(args, 0).validate(), out),
        _ => put(Ok(Frequencies::default()), out),
    }
}

// A new clock set, which is written where it is refused, too.
pub fn new_clocks(args: &[u64; 24], out: &mut [u64; 82]) -> u64
    ensures { result ≡ number_ended (new_clocks (time_at args.now 0) (frequencies_at args.now)).ended }
{
    let made = Clocks::new(time_at(args, 0), frequencies_at(args));
    let number = number_ended(made.ended) as u64;
    out[0] = number;
    put_clocks(made.clocks, out);
    number
}

fn frequencies_at(args: &[u64; 24]) -> Frequencies
    ensures { result ≡ frequencies_at args.now }
{
    Frequencies {
        main_hz: args[2],
        watch_hz: args[3],
        on_chip_hz: args[4],
    }
}
