// A line of a trace as the call that it means.
ghost use Rattle.std.specs.Prelude.{◌≡◌, ◌+◌, ◌^◌, ◌≤◌, ◌<◌, min, length, IfSome};
ghost use Rattle.lines.specs.Reading.{digit_of, digit_in, closed_by, seconds_of, fraction_of, bare_of, single_of, pair_of, written_of, verb_of, fraction_at, timed_of, call_of};

use super::{Call, Verb};
use time::Time;

// The value of a lower-case hexadecimal digit, 16 for another byte. No Option, and no `match`: `fraction` reads 16 of them without a branch, in
// 15 ns; with `digit` in its place it took 20 ns, with `?` after each 73, and with a `match` here a line took three times as long.
fn value(b: u8) -> u8
    ensures value { result ≡ digit_of b }
    ensures bound { result ≤ 16 }
{
    let decimal = (48 <= b) & (b < 58);
    if decimal {
        return b - 48;
    }
    let letter = (97 <= b) & (b < 103);
    if letter { b - 87 } else { 16 }
}

// The value of such a digit where it is below a radix.
#[tactic(auto, unfolding(crate::specs::Reading::digit_in))]
pub fn digit(b: u8, radix: u8) -> Option<u8>
    ensures value { result ≡ digit_in radix b }
    ensures bound { IfSome result (λ d. d < min radix 16) }
{
    let value = value(b);
    if value < radix.min(16) {
        Some(value)
    } else {
        None
    }
}

// What the first byte that is no decimal digit makes of the seconds before it: their value, and the place after their tab.
#[tactic(auto, unfolding(crate::specs::Reading::closed_by))]
fn closed(b: u8, n: u64, at: usize) -> Option<(u64, usize)>
    requires { at + 1 < 2 ^ 64 }
    ensures value { result ≡ closed_by b n at }
    ensures place { IfSome result (λ s. s.1 ≡ at + 1) }
{
    let tab = (b == b'\t') & (at != 0);
    if tab { Some((n, at + 1)) } else { None }
}

// The seconds at the start of a line, and the place after their tab.
fn seconds(line: &[u8]) -> Option<(u64, usize)>
    ensures value { result ≡ seconds_of line.now }
    ensures within { IfSome result (λ s. s.1 ≤ length line.now) }
{
    let mut n = 0u64;
    for (i, &b) in line.iter().enumerate() {
        let Some(d) = digit(b, 10) else {
            return closed(b, n, i);
        };
        let needless = (n == 0) & (i != 0);
        if needless {
            return None;
        }
        n = n.checked_mul(10)?.checked_add(d as u64)?;
    }
    None
}

// The fraction in the first 16 bytes.
fn fraction(rest: &[u8]) -> Option<u64>
    requires { 16 ≤ length rest.now }
    ensures { result ≡ fraction_of rest.now }
{
    let mut n = 0u64;
    let mut fine = true;
    for &b in &rest[..16] {
        let d = value(b);
        fine = fine & (d < 16);
        n = n * 16 + (d % 16) as u64;
    }
    if fine { Some(n) } else { None }
}

// A verb without operands.
#[tactic(auto, unfolding(crate::specs::Reading::bare_of))]
fn bare(verb: u8) -> Option<Verb>
    ensures { result ≡ bare_of verb }
{
    match verb {
        b'v' => Some(Verb::Visit),
        b'd' => Some(Verb::Deadline),
        _ => None,
    }
}

// A verb, a tab and an operand of one byte.
#[tactic(auto, unfolding(crate::specs::Reading::digit_in, crate::specs::Reading::single_of))]
fn single(verb: u8, tab: u8, operand: u8) -> Option<Verb>
    ensures { result ≡ single_of verb tab operand }
{
    match (verb, tab) {
        (b'r', b'\t') => Some(Verb::Read(digit(operand, 8)? as u16)),
        (b'g', b'\t') => Some(Verb::Gate(digit(operand, 2)? == 1)),
        _ => None,
    }
}

// Two levels.
#[tactic(auto, unfolding(crate::specs::Reading::digit_in, crate::specs::Reading::pair_of))]
fn pair(scl: u8, sda: u8) -> Option<Verb>
    ensures { result ≡ pair_of scl sda }
{
    Some(Verb::Pins(digit(scl, 2)? == 1, digit(sda, 2)? == 1))
}

// An address and a byte's two digits.
#[tactic(auto, unfolding(crate::specs::Reading::digit_in, crate::specs::Reading::written_of))]
fn written(address: u8, high: u8, low: u8) -> Option<Verb>
    ensures { result ≡ written_of address high low }
{
    let address = digit(address, 8)?;
    let high = digit(high, 16)?;
    let low = digit(low, 16)?;
    Some(Verb::Write(address as u16, high * 16 + low))
}

// A verb with its operands, parted by tabs.
#[tactic(auto, unfolding(crate::specs::Reading::verb_of, crate::specs::Reading::five_of, crate::specs::Reading::six_of))]
pub fn verb(v: &[u8]) -> Option<Verb>
    ensures { result ≡ verb_of v.now }
{
    match *v {
        [v] => bare(v),
        [v, tab, operand] => single(v, tab, operand),
        [b'p', b'\t', scl, b'\t', sda] => pair(scl, sda),
        [b'w', b'\t', address, b'\t', high, low] => written(address, high, low),
        _ => None,
    }
}

// What follows the seconds and their tab: a fraction and its tab. The seconds end at that place of the line.
#[tactic(auto, unfolding(crate::specs::Reading::fraction_at))]
fn fraction_at(rest: &[u8], seconds: u64, place: usize) -> Option<(Time, usize)>
    requires { place ≤ 64 }
    ensures value { result ≡ fraction_at seconds place rest.now }
    ensures within { IfSome result (λ t. t.1 ≤ place + length rest.now) }
{
    if rest.len() < 17 {
        return None;
    }
    if rest[16] != b'\t' {
        return None;
    }
    let fraction = fraction(rest)?;
    Some((Time { seconds, fraction }, place + 17))
}

// The time at the start of a line of at most 64 bytes, and the place after its second tab.
#[tactic(auto, unfolding(crate::specs::Reading::timed_of))]
pub fn timed(line: &[u8]) -> Option<(Time, usize)>
    ensures value { result ≡ timed_of line.now }
    ensures within { IfSome result (λ t. t.1 ≤ length line.now) }
{
    if 64 < line.len() {
        return None;
    }
    let (seconds, next) = seconds(line)?;
    fraction_at(&line[next..], seconds, next)
}

// The call that a line means.
#[tactic(auto, unfolding(crate::specs::Reading::call_of))]
pub fn parse(line: &[u8]) -> Option<Call>
    ensures { result ≡ call_of line.now }
{
    let (time, next) = timed(line)?;
    let verb = verb(&line[next..])?;
    Some(Call { time, verb })
}
