// Answer lines.
ghost use Rattle.std.specs.Prelude.{◌≡◌, ◌+◌, ◌≤◌, length, [], ◌∷◌, Some};
ghost use Rattle.answers.specs.Puts.{Put};
ghost use Rattle.lines.specs.Numbers.{decimal_in};
ghost use Rattle.lines.specs.Format.{tab, bit_glyph};
ghost use Rattle.lines.specs.Format.{dash};
ghost use Rattle.answers.specs.Answers.{value_in, value_text, levels_text, unit_text, state_text, shown_text, answer_text, room_for, line_of, text_of, report_text, text_by, seen_by};
ghost use Rattle.answers.specs.declared.Value.TheVariants.{Moment};

use super::text::{put_byte, put_decimal, put_digits, put_hex, put_two};
use super::wave::began_by;
use super::{Answer, Host, Line, Output, Seen, Shown, Value};
use bus::Levels;
use refusals::{Refusal, number_ended};
use time::Time;

pub(crate) fn bit_glyph(b: bool) -> u8
    ensures { result ≡ bit_glyph b }
{
    if b { b'1' } else { b'0' }
}

// The value of an answer line, none for a refusal.
fn value_in(answer: Result<Option<Value>, Refusal>) -> Option<Value>
    ensures { result ≡ value_in answer }
{
    answer.unwrap_or(None)
}

// Seconds, a colon, the fraction.
fn put_time(out: &mut [u8], at: usize, time: Time) -> usize
    requires { at + 37 ≤ length out.old }
    ensures { Put out.old out.new at result (value_text (Some (Moment time))) }
{
    let colon = put_decimal(out, at, time.seconds, 20);
    let next = put_byte(out, colon, b':');
    put_hex(out, next, time.fraction, 16)
}

fn put_value(out: &mut [u8], at: usize, value: Option<Value>) -> usize
    requires { at + 37 ≤ length out.old }
    ensures { Put out.old out.new at result (value_text value) }
{
    let Some(value) = value else {
        return put_byte(out, at, b'-');
    };
    match value {
        Value::Byte(byte) => put_digits(out, at, byte),
        Value::Bit(bit) => put_byte(out, at, bit_glyph(bit)),
        Value::Moment(time) => put_time(out, at, time),
    }
}

fn put_levels(out: &mut [u8], at: usize, pins: Option<Levels>) -> usize
    requires { at + 2 ≤ length out.old }
    ensures { Put out.old out.new at result (levels_text pins) }
{
    match pins {
        None => put_byte(out, at, b'-'),
        Some(levels) => put_two(out, at, bit_glyph(levels.scl), bit_glyph(levels.sda)),
    }
}

// A tab and the digit of a unit.
fn put_digit(out: &mut [u8], at: usize, unit: u8) -> usize
    requires { at + 2 ≤ length out.old }
    ensures { Put out.old out.new at result (tab ∷ decimal_in 1 unit) }
{
    let next = put_byte(out, at, b'\t');
    put_decimal(out, next, unit as u64, 1)
}

fn put_unit(out: &mut [u8], at: usize, shown: Shown) -> usize
    requires { at + 2 ≤ length out.old }
    ensures { Put out.old out.new at result (unit_text shown) }
{
    match shown {
        Shown::Alone(_, _) => at,
        Shown::Unit(unit, _, _) => put_digit(out, at, unit),
        Shown::Nobody => put_two(out, at, b'\t', b'-'),
    }
}

// Levels, a tab, the status.
fn put_state(out: &mut [u8], at: usize, pins: Option<Levels>, status: u8) -> usize
    requires { at + 5 ≤ length out.old }
    ensures { Put out.old out.new at result (state_text pins status) }
{
    let a = put_levels(out, at, pins);
    let b = put_byte(out, a, b'\t');
    put_digits(out, b, status)
}

// A dash for the levels and one for the status.
fn put_dashes(out: &mut [u8], at: usize) -> usize
    requires { at + 5 ≤ length out.old }
    ensures { Put out.old out.new at result (dash ∷ tab ∷ dash ∷ []) }
{
    let next = put_two(out, at, b'-', b'\t');
    put_byte(out, next, b'-')
}

fn put_shown(out: &mut [u8], at: usize, shown: Shown) -> usize
    requires { at + 5 ≤ length out.old }
    ensures { Put out.old out.new at result (shown_text shown) }
{
    match shown {
        Shown::Alone(pins, status) => put_state(out, at, pins, status),
        Shown::Unit(_, pins, status) => put_state(out, at, pins, status),
        Shown::Nobody => put_dashes(out, at),
    }
}

// A line's number and a report at the start of the part; the rest of it stays.
fn write_report(out: &mut [u8], number: u64, report: u64) -> usize
    requires { 80 ≤ length out.old }
    ensures { Put out.old out.new 0 result (report_text number report) }
{
    let a = put_decimal(out, 0, number, 20);
    let b = put_byte(out, a, b'\t');
    let c = put_decimal(out, b, report, 20);
    put_byte(out, c, b'\n')
}

impl Line {
    // At the start of the part; the rest of it stays.
    fn put(self, out: &mut [u8]) -> usize
        requires { 80 ≤ length out.old }
        ensures { Put out.old out.new 0 result (answer_text self) }
    {
        let refusal = number_ended(self.answer);
        let value = value_in(self.answer);
        let shown = self.shown;
        let a = put_decimal(out, 0, self.number, 20);
        let b = put_unit(out, a, shown);
        let c = put_byte(out, b, b'\t');
        let d = put_decimal(out, c, refusal as u64, 3);
        let e = put_byte(out, d, b'\t');
        let f = put_value(out, e, value);
        let g = put_byte(out, f, b'\t');
        let h = put_shown(out, g, shown);
        put_byte(out, h, b'\n')
    }

    // The same where 80 bytes are free; else nothing.
    pub fn write(self, out: &mut [u8]) -> usize
        ensures { Put out.old out.new 0 result (room_for (length out.old) (answer_text self)) }
    {
        if out.len() < 80 {
            return 0;
        }
        self.put(out)
    }
}

impl Seen {
    // After a line, by the status before it and the host after it.
    pub fn after(self, output: Output, before: u8, host: Host) -> Seen
        ensures { result ≡ seen_by output self before host }
    {
        let window = self.window;
        let began = self.began;
        let last = host.last;
        Seen {
            window: window.take(before, host.state.registers.status),
            began: began_by(output, began, last),
        }
    }
}

impl Answer {
    // What is written for the line of that number, at the start of the part, where 80 bytes are free; else nothing.
    pub fn write(self, output: Output, seen: Seen, out: &mut [u8], number: u64) -> usize
        ensures { Put out.old out.new 0 result (room_for (length out.old) (text_by output number seen self)) }
    {
        let window = seen.window;
        let began = seen.began;
        if out.len() < 80 {
            return 0;
        }
        match output {
            Output::Answers => self.write_answer(out, number),
            Output::Reports => write_report(out, number, window.report()),
            Output::Waves => self.write_wave(began, out),
        }
    }

    fn line(self, number: u64) -> Line
        ensures { result ≡ line_of number self }
    {
        let state = self.host.state;
        Line {
            number,
            answer: self.answer,
            shown: Shown::Alone(state.pins(), state.registers.status),
        }
    }

    fn write_answer(self, out: &mut [u8], number: u64) -> usize
        requires { 80 ≤ length out.old }
        ensures { Put out.old out.new 0 result (text_of number self) }
    {
        self.line(number).put(out)
    }
}
