// The words of an answer, behind the number of its refusal.
ghost use Rattle.refusals.specs.Refusals.{number_ended};
ghost use Rattle.std.proofs.Common.{rules};
ghost use Rattle.std.proofs.lemmas.List.Edits.{sets};
ghost use Rattle.std.specs.Prelude.{List, ℕ, length, ◌≡◌, ◌<◌, ◌≤◌, ◌∷◌};
ghost use Rattle.clock_calls.specs.Told.{Told, Written, answer_words, clock_words, count_words, deadline_words, domain_words, frequencies_words, nothing_words, tap_words, time_words, truth_words, wait_words};

use super::number_of;
use clocks::Frequencies;
use clocks::tap::Tap;
use clocks::wait::{ClockWait, WaitState, Waited};
use domain::Domain;
use refusals::{Refusal, number_ended};
use time::{Clock, Time};

// What is answered in words.
pub trait Words {
    ghost words_of: { Self → List ℕ };

    fn put_behind(self, out: &mut [u64; 82])
        ensures { out.new ≡ sets out.old 1 (words_of self) };

    // With the number they are at most ten.
    ghost few: { (x : Self) → length (words_of x) < 10 };
}

// A number, and the words of a value behind it.
fn write<T: Words>(number: u64, value: T, out: &mut [u64; 82]) -> u64
    ensures { (result ≡ number) × Written 10 number out.old out.new × (out.new ≡ sets out.old 0 (number ∷ T.words_of value)) }
{
    out[0] = number;
    value.put_behind(out);
    number
}

// The number of the refusal alone; or 0, and what is answered.
pub fn put<T: Words>(answer: Result<T, Refusal>, out: &mut [u64; 82]) -> u64
    ensures { (result ≡ number_ended answer) × Told 10 result out.old out.new × (out.new ≡ sets out.old 0 (answer_words T.words_of answer)) }
{
    match answer {
        Ok(value) => write(0, value, out),
        Err(refusal) => write(refusal.number() as u64, (), out),
    }
}

// A wait behind what ended the call, which is written where that is refused, too.
pub(crate) fn put_waited(w: Waited, out: &mut [u64; 82]) -> u64
    ensures { (result ≡ number_ended w.ended) × Written 10 result out.old out.new }
{
    write(number_ended(w.ended) as u64, w.wait, out)
}

pub(crate) fn put_nine(words: [u64; 9], out: &mut [u64; 82], at: usize)
    requires { at ≤ 73 }
    ensures { out.new ≡ sets out.old at words }
{
    out[at..at + 9].copy_from_slice(&words);
}

// The nine words of a domain: its clock, whether it runs, and when it was held.
pub(crate) fn nine_of(d: Domain) -> [u64; 9]
    ensures { result ≡ domain_words d }
{
    let clock = d.clock;
    let held = d.held_at;
    [
        clock.start.seconds,
        clock.start.fraction,
        clock.numerator,
        clock.denominator,
        clock.ordinal,
        clock.fraction,
        u64::from(d.running),
        held.seconds,
        held.fraction,
    ]
}

impl Words for () {
    ghost words_of = { nothing_words };

    ghost few = { Prim.search rules };

    fn put_behind(self, out: &mut [u64; 82]) {}
}

impl Words for u8 {
    ghost words_of = { count_words };

    ghost few = { Prim.search rules };

    fn put_behind(self, out: &mut [u64; 82]) {
        u64::from(self).put_behind(out);
    }
}

impl Words for u64 {
    ghost words_of = { count_words };

    ghost few = { Prim.search rules };

    fn put_behind(self, out: &mut [u64; 82]) {
        put_nine([self, 0, 0, 0, 0, 0, 0, 0, 0], out, 1);
    }
}

impl Words for bool {
    ghost words_of = { truth_words };

    ghost few = { Prim.search rules };

    fn put_behind(self, out: &mut [u64; 82]) {
        u64::from(self).put_behind(out);
    }
}

impl Words for Time {
    ghost words_of = { time_words };

    ghost few = { Prim.search rules };

    fn put_behind(self, out: &mut [u64; 82]) {
        put_nine([self.seconds, self.fraction, 0, 0, 0, 0, 0, 0, 0], out, 1);
    }
}

// Whether there is a time, then it.
impl Words for Option<Time> {
    ghost words_of = { deadline_words };

    ghost few = { Prim.search rules };

    fn put_behind(self, out: &mut [u64; 82]) {
        match self {
            None => put_nine([0; 9], out, 1),
            Some(t) => put_nine([1, t.seconds, t.fraction, 0, 0, 0, 0, 0, 0], out, 1),
        }
    }
}

impl Words for Clock {
    ghost words_of = { clock_words };

    ghost few = { Prim.search rules };

    fn put_behind(self, out: &mut [u64; 82]) {
        let Time { seconds, fraction } = self.start;
        put_nine(
            [
                seconds,
                fraction,
                self.numerator,
                self.denominator,
                self.ordinal,
                self.fraction,
                0,
                0,
                0,
            ],
            out,
            1,
        );
    }
}

impl Words for Domain {
    ghost words_of = { domain_words };

    ghost few = { Prim.search rules };

    fn put_behind(self, out: &mut [u64; 82]) {
        put_nine(nine_of(self), out, 1);
    }
}

impl Words for Tap {
    ghost words_of = { tap_words };

    ghost few = { Prim.search rules };

    fn put_behind(self, out: &mut [u64; 82]) {
        put_nine(
            [
                number_of(self.source),
                self.divide as u64,
                0,
                0,
                0,
                0,
                0,
                0,
                0,
            ],
            out,
            1,
        );
    }
}

impl Words for Frequencies {
    ghost words_of = { frequencies_words };

    ghost few = { Prim.search rules };

    fn put_behind(self, out: &mut [u64; 82]) {
        put_nine(
            [
                self.main_hz,
                self.watch_hz,
                self.on_chip_hz,
                0,
                0,
                0,
                0,
                0,
                0,
            ],
            out,
            1,
        );
    }
}

// The tap, the number of the state, and what it holds.
impl Words for ClockWait {
    ghost words_of = { wait_words };

    ghost few = { Prim.search rules };

    fn put_behind(self, out: &mut [u64; 82]) {
        let (state, count, fraction) = match self.state {
            WaitState::Running(target) => (0, target, 0),
            WaitState::Paused(remaining) => (1, remaining, 0),
            WaitState::Ready(at) => (2, at.seconds, at.fraction),
        };
        out[1] = number_of(self.tap.source);
        out[2] = self.tap.divide as u64;
        out[3] = state;
        out[4] = count;
        out[5] = fraction;
    }
}
