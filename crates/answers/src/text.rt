// Numbers as text, from a place of a lent buffer on: each function puts its bytes there and returns the next place.
ghost use Rattle.std.specs.Prelude.{◌≡◌, [], ◌∷◌, ◌+◌, ◌≤◌, ◌<◌, length};
ghost use Rattle.lines.specs.Numbers.{glyph, decimal_in, hex_in};
ghost use Rattle.answers.specs.Puts.{Put};

// The digit of a number below 16.
fn glyph_of(d: u64) -> u8
    requires { d < 16 }
    ensures { result ≡ glyph d }
{
    if d < 10 { 48 + d as u8 } else { 87 + d as u8 }
}

pub(crate) fn put_byte(out: &mut [u8], at: usize, b: u8) -> usize
    requires { at + 1 ≤ length out.old }
    ensures { Put out.old out.new at result (b ∷ []) }
{
    out[at] = b;
    at + 1
}

// Two bytes.
pub(crate) fn put_two(out: &mut [u8], at: usize, a: u8, b: u8) -> usize
    requires { at + 2 ≤ length out.old }
    ensures { Put out.old out.new at result (a ∷ b ∷ []) }
{
    let next = put_byte(out, at, a);
    put_byte(out, next, b)
}

// At most k decimal digits of n, with no needless zero: two at a time.
pub(crate) fn put_decimal(out: &mut [u8], at: usize, n: u64, k: usize) -> usize
    requires { at + k ≤ length out.old }
    ensures { Put out.old out.new at result (decimal_in k n) }
{
    if k == 0 {
        return at;
    }
    if n < 10 {
        return put_byte(out, at, glyph_of(n));
    }
    let last = glyph_of(n % 10);
    if k == 1 {
        return put_byte(out, at, last);
    }
    let tens = n / 10;
    if tens < 10 {
        return put_two(out, at, glyph_of(tens), last);
    }
    let next = put_decimal(out, at, tens / 10, k - 2);
    put_two(out, next, glyph_of(tens % 10), last)
}

// The last k hexadecimal digits of n.
pub(crate) fn put_hex(out: &mut [u8], at: usize, n: u64, k: usize) -> usize
    requires { at + k ≤ length out.old }
    ensures { Put out.old out.new at result (hex_in k n) }
{
    if k == 0 {
        return at;
    }
    let next = put_hex(out, at, n / 16, k - 1);
    put_byte(out, next, glyph_of(n % 16))
}

// The two hexadecimal digits of a byte.
pub(crate) fn put_digits(out: &mut [u8], at: usize, b: u8) -> usize
    requires { at + 2 ≤ length out.old }
    ensures { Put out.old out.new at result (hex_in 2 b) }
{
    let n = b as u64;
    put_two(out, at, glyph_of(n / 16), glyph_of(n % 16))
}
