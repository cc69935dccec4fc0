// Numbers of two and three 64-bit words: sums, products and quotients.
#![tactic(auto)]

ghost use Rattle.std.specs.Prelude.{◌≡◌, ◌+◌, ◌-◌, ◌*◌, ◌/◌, ◌%◌, ◌^◌, ◌<◌, ◌≤◌, count_ones};
ghost use Rattle.words.specs.Words.{value_of, triple_of, divided_of, Divides};

// A number of two words: high * 2^64 + low.
#[derive(Clone, Copy, Debug, PartialEq, Eq)]
pub struct Wide {
    pub high: u64,
    pub low: u64,
}

// A number of three words: (high * 2^64 + middle) * 2^64 + low.
#[derive(Clone, Copy, Debug, PartialEq, Eq)]
pub struct Triple {
    pub high: u64,
    pub middle: u64,
    pub low: u64,
}

// What a division gives: its quotient is one word or two.
#[derive(Clone, Copy, Debug, PartialEq, Eq)]
pub struct Divided<Q> {
    pub quotient: Q,
    pub remainder: u64,
}

// The whole sum of two words. The low word wraps, and the carry is one where the wrapped sum is the smaller.
pub fn sum(a: u64, b: u64) -> Wide
    ensures { value_of result ≡ a + b }
{
    let low = a.wrapping_add(b);
    let high = if low < a { 1 } else { 0 };
    Wide { high, low }
}

// The whole product of two words, from the four products of their halves. The sum of the two products across wraps, with its
// carry as in `sum`; in this form the compiler sees the machine's own product.
pub fn product(a: u64, b: u64) -> Wide
    ensures { value_of result ≡ a * b }
{
    let a1 = a / 0x1_0000_0000;
    let a0 = a % 0x1_0000_0000;
    let b1 = b / 0x1_0000_0000;
    let b0 = b % 0x1_0000_0000;
    let bottom = a0 * b0;
    let across = sum(a1 * b0, a0 * b1);
    let middle = bottom / 0x1_0000_0000 + across.low % 0x1_0000_0000;
    Wide {
        high: a1 * b1
            + across.high * 0x1_0000_0000
            + across.low / 0x1_0000_0000
            + middle / 0x1_0000_0000,
        low: middle % 0x1_0000_0000 * 0x1_0000_0000 + bottom % 0x1_0000_0000,
    }
}

// The whole product of a number of two words and a word.
pub fn product_by(n: Wide, by: u64) -> Triple
    ensures { triple_of result ≡ value_of n * by }
{
    let upper = product(n.high, by);
    let lower = product(n.low, by);
    let middle = sum(upper.low, lower.high);
    Triple {
        high: upper.high + middle.high,
        middle: middle.low,
        low: lower.low,
    }
}

// The upper two words of the number that is one and a word less, and of 0 where there is none.
pub fn upper_of_less(n: Triple, by: u64) -> Wide
    ensures { value_of result ≡ (triple_of n - 1 - by) / 2 ^ 64 }
{
    if by < n.low {
        return Wide {
            high: n.high,
            low: n.middle,
        };
    }
    if n.middle != 0 {
        return Wide {
            high: n.high,
            low: n.middle - 1,
        };
    }
    if n.high != 0 {
        return Wide {
            high: n.high - 1,
            low: u64::MAX,
        };
    }
    Wide { high: 0, low: 0 }
}

// Division by a divisor of at most 2^32, in two digits of 32 bits.
fn divide_short(n: Wide, by: u64) -> Divided<u64>
    requires { (n.high < by) × (by ≤ 2 ^ 32) }
    ensures { Divides (value_of n) by result.quotient result.remainder }
{
    let upper = n.high * 0x1_0000_0000 + n.low / 0x1_0000_0000;
    let lower = upper % by * 0x1_0000_0000 + n.low % 0x1_0000_0000;
    Divided {
        quotient: upper / by * 0x1_0000_0000 + lower / by,
        remainder: lower % by,
    }
}

// One digit of 32 bits of a quotient, by a divisor with its top bit set: estimated from the divisor's upper half, the
// quotient is at most two too large.
fn digit(high: u64, next: u64, by: u64) -> Divided<u64>
    requires { (2 ^ 63 ≤ by) × (high < by) × (next < 2 ^ 32) }
    ensures { Divides (high * 2 ^ 32 + next) by result.quotient result.remainder }
{
    let upper = by / 0x1_0000_0000;
    let estimate = high / upper;
    let have = high % upper * 0x1_0000_0000 + next;
    let take = estimate * (by % 0x1_0000_0000);
    if take <= have {
        return Divided {
            quotient: estimate,
            remainder: have - take,
        };
    }
    let lack = take - have;
    if lack <= by {
        return Divided {
            quotient: estimate - 1,
            remainder: by - lack,
        };
    }
    Divided {
        quotient: estimate - 2,
        remainder: by - (lack - by),
    }
}

// Division by a divisor of more than 2^32: divisor and dividend are shifted until the divisor's top bit is set, and the
// quotient is worked out in two digits of 32 bits.
fn divide_long(n: Wide, by: u64) -> Divided<u64>
    requires { n.high < by }
    ensures { Divides (value_of n) by result.quotient result.remainder }
{
    let shift = by.leading_zeros();
    let scaled = by << shift;
    let top = (n.high << shift) + ((n.low >> 1) >> (63 - shift));
    let rest = n.low << shift;
    let first = digit(top, rest / 0x1_0000_0000, scaled);
    let second = digit(first.remainder, rest % 0x1_0000_0000, scaled);
    Divided {
        quotient: first.quotient * 0x1_0000_0000 + second.quotient,
        remainder: second.remainder >> shift,
    }
}

// Division where the quotient is one word.
fn divide_part(n: Wide, by: u64) -> Divided<u64>
    requires { n.high < by }
    ensures { Divides (value_of n) by result.quotient result.remainder }
{
    if n.high == 0 {
        return Divided {
            quotient: n.low / by,
            remainder: n.low % by,
        };
    }
    if by <= 0x1_0000_0000 {
        return divide_short(n, by);
    }
    divide_long(n, by)
}

// The quotient and the remainder of a number of two words by a word; by zero, zero and zero.
pub fn divide(n: Wide, by: u64) -> Divided<Wide>
    ensures { result ≡ divided_of (value_of n) by }
{
    if n.high < by {
        let part = divide_part(n, by);
        return Divided {
            quotient: Wide {
                high: 0,
                low: part.quotient,
            },
            remainder: part.remainder,
        };
    }
    if by == 0 {
        return Divided {
            quotient: Wide { high: 0, low: 0 },
            remainder: 0,
        };
    }
    let left = Wide {
        high: n.high % by,
        low: n.low,
    };
    let part = divide_part(left, by);
    Divided {
        quotient: Wide {
            high: n.high / by,
            low: part.quotient,
        },
        remainder: part.remainder,
    }
}

// A divisor that is not 0, and its reciprocal, the quotient of 2^64 - 1.
#[derive(Clone, Copy)]
struct Divisor {
    by: u64,
    reciprocal: u64,
    ghost some: { 0 < by },
    ghost is_reciprocal: { reciprocal ≡ (2 ^ 64 - 1) / by },
}

impl Divisor {
    // The quotient of a word: the high word of its product with the reciprocal is the quotient or one less.
    fn quotient(self, x: u64) -> u64
        ensures { result ≡ x / self.by }
    {
        let times = product(x, self.reciprocal);
        let rest = x - times.high * self.by;
        if rest < self.by {
            return times.high;
        }
        times.high + 1
    }

    // The quotient of two words, the high one below the divisor: the upper words of the product with the reciprocal are the quotient or less, and
    // what they leave is a word, whose quotient is added.
    fn wide_quotient(self, n: Wide) -> u64
        requires { (n.high < self.by) × (n.high + 2 ≤ self.reciprocal) }
        ensures { result ≡ value_of n / self.by }
    {
        let lower = product(n.low, self.reciprocal);
        let near = n.high * self.reciprocal + lower.high;
        let taken = product(near, self.by);
        near + self.quotient(n.low.wrapping_sub(taken.low))
    }

    // The quotient of two words, the high one below the divisor, and so one word.
    fn one_word_quotient(self, n: Wide) -> u64
        requires { n.high < self.by }
        ensures { result ≡ value_of n / self.by }
    {
        if n.high == 0 {
            return self.quotient(n.low);
        }
        if n.high < self.reciprocal - 1 {
            return self.wide_quotient(n);
        }
        divide_part(n, self.by).quotient
    }
}

// The quotient of n * 2^64 by a power of two, by shifts.
fn scaled_shift(n: u64, by: u64) -> Wide
    requires { count_ones by ≡ 1 }
    ensures { value_of result ≡ n * 2 ^ 64 / by }
{
    let shift = by.trailing_zeros();
    Wide {
        high: n >> shift,
        low: (n << (63 - shift)) << 1,
    }
}

// The quotient of n * 2^64 by a word, from that of 2^64; by zero, zero.
pub fn scaled_quotient(n: u64, by: u64) -> Wide
    ensures { value_of result ≡ n * 2 ^ 64 / by }
{
    if by.count_ones() == 1 {
        return scaled_shift(n, by);
    }
    if by == 0 {
        return Wide { high: 0, low: 0 };
    }
    let divisor = Divisor {
        by,
        reciprocal: u64::MAX / by,
    };
    let times = product(n, divisor.reciprocal);
    let left = product(n, u64::MAX % by + 1);
    let low = sum(times.low, divisor.one_word_quotient(left));
    Wide {
        high: times.high + low.high,
        low: low.low,
    }
}
