// The signals after a line, as a VCD file has them: a time, then a value for each signal.
ghost use Rattle.std.specs.Prelude.{◌≡◌, [], ◌∷◌, ◌+◌, ◌-◌, ◌≤◌, length};
ghost use Rattle.time.specs.Time.{time_of};
ghost use Rattle.answers.specs.Puts.{Put};
ghost use Rattle.answers.specs.Wave.{began_by, nanoseconds_in, since_began, wires_of, driven_of, signals_of, changes_from, moment_text, wave_text};

use super::text::{put_byte, put_decimal, put_two};
use super::writing::bit_glyph;
use super::{Answer, Output};
use bus::Levels;
use iic::Iic;
use refusals::number_ended;
use registers::bits::{AAS, ADZ, AL, NACKF, RDRF, STOP, TDRE, TEND};
use time::Time;

// A byte for each of two lines.
#[derive(Clone, Copy)]
struct Glyphs {
    pub scl: u8,
    pub sda: u8,
}

fn nanoseconds(time: Time) -> u64
    ensures { result ≡ nanoseconds_in (time_of time) }
{
    if time.seconds < 18446744073 {
        let upper = time.fraction / 0x1_0000_0000 * 1000000000;
        let lower = time.fraction % 0x1_0000_0000 * 1000000000 / 0x1_0000_0000;
        return time.seconds * 1000000000 + (upper + lower) / 0x1_0000_0000;
    }
    18446744073000000000
}

fn nanoseconds_from(first: Time, time: Time) -> u64
    ensures { result ≡ nanoseconds_in (time_of time - time_of first) }
{
    match time.duration_since(first) {
        Ok(duration) => nanoseconds(duration),
        Err(_) => 0,
    }
}

// Nanoseconds since the first line.
fn since(began: Option<Time>, time: Time) -> u64
    ensures { result ≡ since_began began time }
{
    match began {
        None => 0,
        Some(first) => nanoseconds_from(first, time),
    }
}

// The levels of the wires themselves.
fn wires(given: Levels, pins: Option<Levels>) -> Levels
    ensures { result ≡ wires_of given pins }
{
    match pins {
        None => given,
        Some(levels) => bus::wired(given, levels),
    }
}

fn driven(pins: Option<Levels>) -> Glyphs
    ensures { result ≡ driven_of pins }
{
    match pins {
        None => Glyphs {
            scl: b'z',
            sda: b'z',
        },
        Some(levels) => Glyphs {
            scl: bit_glyph(levels.scl),
            sda: bit_glyph(levels.sda),
        },
    }
}

fn signals(given: Levels, pins: Option<Levels>, status: u8, gate: bool) -> [u8; 15]
    ensures { result ≡ signals_of given pins status gate }
{
    let wires = wires(given, pins);
    let driven = driven(pins);
    [
        bit_glyph(wires.scl),
        bit_glyph(wires.sda),
        bit_glyph(given.scl),
        bit_glyph(given.sda),
        driven.scl,
        driven.sda,
        bit_glyph(status & TDRE != 0),
        bit_glyph(status & TEND != 0),
        bit_glyph(status & RDRF != 0),
        bit_glyph(status & NACKF != 0),
        bit_glyph(status & STOP != 0),
        bit_glyph(status & AL != 0),
        bit_glyph(status & AAS != 0),
        bit_glyph(status & ADZ != 0),
        bit_glyph(gate),
    ]
}

fn put_change(out: &mut [u8], at: usize, value: u8, name: u8) -> usize
    requires { at + 3 ≤ length out.old }
    ensures { Put out.old out.new at result (value ∷ name ∷ 10 ∷ []) }
{
    let next = put_two(out, at, value, name);
    put_byte(out, next, b'\n')
}

fn put_changes(out: &mut [u8], at: usize, values: &[u8]) -> usize
    requires { (length values.now ≡ 15) × (at + 45 ≤ length out.old) }
    ensures { Put out.old out.new at result (changes_from 33 values.now) }
{
    let mut next = at;
    for (i, &value) in values.iter().enumerate() {
        next = put_change(out, next, value, b'!' + i as u8);
    }
    next
}

// At the start of the part; the rest of it stays.
fn write_moment(out: &mut [u8], time: u64, state: Iic) -> usize
    requires { 80 ≤ length out.old }
    ensures { Put out.old out.new 0 result (moment_text time state) }
{
    let lines = state.lines;
    let given = lines.raw;
    let values = signals(
        given,
        state.pins(),
        state.registers.status,
        state.flags.gate,
    );
    let a = put_byte(out, 0, b'#');
    let b = put_decimal(out, a, time, 20);
    let c = put_byte(out, b, b'\n');
    put_changes(out, c, &values)
}

// The time of the first line that wasn't refused 4 or 5, after a line that left the other time; kept where signals are written.
pub(crate) fn began_by(output: Output, began: Option<Time>, last: Option<Time>) -> Option<Time>
    ensures { result ≡ began_by output began last }
{
    match output {
        Output::Answers => began,
        Output::Reports => began,
        Output::Waves => began.or(last),
    }
}

impl Answer {
    // Nothing for a line refused 4 or 5.
    pub(crate) fn write_wave(self, began: Option<Time>, out: &mut [u8]) -> usize
        requires { 80 ≤ length out.old }
        ensures { Put out.old out.new 0 result (wave_text began self) }
    {
        let host = self.host;
        let last = host.last;
        let state = host.state;
        let refusal = number_ended(self.answer);
        if (refusal == 4) | (refusal == 5) {
            return 0;
        }
        match last {
            None => 0,
            Some(time) => write_moment(out, since(began, time), state),
        }
    }
}
