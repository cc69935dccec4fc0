// Time in seconds and units of 2^-64 s, and clocks of a rational frequency.
#![tactic(auto)]

ghost use Rattle.std.specs.Prelude.{◌≡◌, ◌+◌, ◌-◌, ◌*◌, ◌/◌, ◌%◌, ◌^◌, ◌<◌, ◌≤◌, min};
ghost use Rattle.time.specs.Time.{time_of, time_from, moment_of, earlier, same_time, sum_of, since_of, next_time, midway};
ghost use Rattle.time.specs.Clock.{edges_before, zero_in, new_clock, after_of, edges_before_of, move_of};
ghost use Rattle.words.specs.Words.{value_of};

use refusals::Refusal;
use words::{Wide, divide, product, product_by, scaled_quotient, sum, upper_of_less};

// Whole seconds, and a fraction of a second in units of 2^-64 s. The order is that of the units.
#[derive(Clone, Copy, Debug, PartialEq, Eq, PartialOrd, Ord)]
pub struct Time {
    pub seconds: u64,
    pub fraction: u64,
}

// A clock of numerator / denominator Hz. Its start is the edge of the ordinal; the fraction, in parts of 1 / numerator of a unit of
// time, is what that edge's time left over when it was rounded down.
#[derive(Clone, Copy, Debug, PartialEq, Eq)]
pub struct Clock {
    pub start: Time,
    pub numerator: u64,
    pub denominator: u64,
    pub ordinal: u64,
    pub fraction: u64,
}

impl Time {
    // Whether the time is earlier than another: `<`, kept as a method since its contract says the derived order in units.
    #[tactic(auto, unfolding(crate::specs::Time::earlier))]
    pub fn before(self, other: Time) -> bool
        ensures { result ≡ earlier self other }
    {
        self < other
    }

    // Whether the two times are one: `==`, kept as a method since its contract says the derived equality in units.
    #[tactic(auto, unfolding(crate::specs::Time::same_time))]
    pub fn same(self, other: Time) -> bool
        ensures { result ≡ same_time self other }
    {
        self == other
    }

    // The time that much later, or `Overflow` past the last time.
    pub fn checked_add(self, by: Time) -> Result<Time, Refusal>
        ensures { result ≡ sum_of self by }
    {
        let low = sum(self.fraction, by.fraction);
        let high = sum(self.seconds, by.seconds);
        let top = sum(high.low, low.high);
        if high.high + top.high != 0 {
            return Err(Refusal::Overflow);
        }
        Ok(Time {
            seconds: top.low,
            fraction: low.low,
        })
    }

    // The time since another that is no later.
    fn since(self, other: Time) -> Time
        requires { time_of other ≤ time_of self }
        ensures { result ≡ time_from (time_of self - time_of other) }
    {
        let fraction = std::num::wrapping_sub_u64(self.fraction, other.fraction);
        if self.fraction < other.fraction {
            return Time {
                seconds: self.seconds - other.seconds - 1,
                fraction,
            };
        }
        Time {
            seconds: self.seconds - other.seconds,
            fraction,
        }
    }

    // The time since an earlier one, or `Reversed` where that is the later.
    #[tactic(auto, unfolding(crate::specs::Time::since_of))]
    pub fn duration_since(self, before: Time) -> Result<Time, Refusal>
        ensures { result ≡ since_of self before }
    {
        if self < before {
            return Err(Refusal::Reversed);
        }
        Ok(self.since(before))
    }

    // One unit later; the last time stays.
    pub fn next(self) -> Time
        ensures { result ≡ next_time self }
    {
        let low = sum(self.fraction, 1);
        let high = sum(self.seconds, low.high);
        if high.high != 0 {
            return self;
        }
        Time {
            seconds: high.low,
            fraction: low.low,
        }
    }

    // Half of a time, rounded down.
    fn half(self) -> Time
        ensures { result ≡ time_from (time_of self / 2) }
    {
        Time {
            seconds: self.seconds / 2,
            fraction: self.seconds % 2 * 0x8000_0000_0000_0000 + self.fraction / 2,
        }
    }

    // How many whole periods of denominator / numerator seconds end before this time has passed, where part / numerator of a unit
    // had passed before, at most 2^64 - 1.
    fn periods(self, numerator: u64, denominator: u64, part: u64) -> u64
        requires { 0 < denominator }
        ensures { result ≡ min ((time_of self * numerator - 1 - part) / 2 ^ 64 / denominator) (2 ^ 64 - 1) }
    {
        let since = Wide {
            high: self.seconds,
            low: self.fraction,
        };
        let scaled = upper_of_less(product_by(since, numerator), part);
        if denominator <= scaled.high {
            return u64::MAX;
        }
        if denominator == 1 {
            return scaled.low;
        }
        divide(scaled, denominator).quotient.low
    }

    // The time halfway to a later one, rounded down; the time itself where the other is earlier.
    pub fn midway(self, later: Time) -> Time
        ensures { result ≡ midway self later }
    {
        if later < self {
            return self;
        }
        let gap = later.since(self);
        self.checked_add(gap.half()).unwrap_or(self)
    }
}

// The whole product of edges and denominator, without one where the denominator is 1.
fn periods_of(edges: u64, denominator: u64) -> Wide
    ensures { value_of result ≡ edges * denominator }
{
    if denominator == 1 {
        return Wide {
            high: 0,
            low: edges,
        };
    }
    product(edges, denominator)
}

// The sum, at most 2^64 - 1.
fn capped_sum(a: u64, b: u64) -> u64
    ensures { result ≡ min (a + b) (2 ^ 64 - 1) }
{
    let total = sum(a, b);
    if total.high != 0 {
        return u64::MAX;
    }
    total.low
}

// The time of so many periods of 1 / numerator s and of part / numerator of a unit after a start, or `Overflow`: the whole seconds, and what
// they leave of a second.
fn edge_of(start: Time, numerator: u64, periods: Wide, part: u64) -> Result<Time, Refusal>
    requires { 0 < numerator }
    ensures { result ≡ moment_of (time_of start + (value_of periods * 2 ^ 64 + part) / numerator) }
{
    if (periods.high == 0) & (part == 0) {
        let since = scaled_quotient(periods.low, numerator);
        return start.checked_add(Time {
            seconds: since.high,
            fraction: since.low,
        });
    }
    let whole = divide(periods, numerator);
    if whole.quotient.high != 0 {
        return Err(Refusal::Overflow);
    }
    let left = Wide {
        high: whole.remainder,
        low: part,
    };
    let rest = divide(left, numerator);
    start.checked_add(Time {
        seconds: whole.quotient.low,
        fraction: rest.quotient.low,
    })
}

// What so many periods of 1 / numerator s and part / numerator of a unit leave over, in parts of 1 / numerator of a unit.
fn left_over(numerator: u64, periods: Wide, part: u64) -> u64
    requires { 0 < numerator }
    ensures { result ≡ (value_of periods * 2 ^ 64 + part) % numerator }
{
    let whole = divide(periods, numerator);
    let left = Wide {
        high: whole.remainder,
        low: part,
    };
    divide(left, numerator).remainder
}

impl Clock {
    // A clock, or `ZeroFrequency` where the frequency or its denominator is zero.
    #[tactic(auto, unfolding(crate::specs::Clock::new_clock))]
    pub fn new(start: Time, numerator: u64, denominator: u64) -> Result<Clock, Refusal>
        ensures { result ≡ new_clock start numerator denominator }
    {
        let clock = Clock {
            start,
            numerator,
            denominator,
            ordinal: 0,
            fraction: 0,
        };
        if clock.has_zero() {
            return Err(Refusal::ZeroFrequency);
        }
        Ok(clock)
    }

    // Whether the numerator or the denominator is zero, or the fraction not below the numerator, as none is where that is zero.
    pub fn has_zero(self) -> bool
        ensures { result ≡ zero_in self }
    {
        (self.denominator == 0) | (self.numerator <= self.fraction)
    }

    // The time of the edge of that number; `ZeroFrequency` as `has_zero` has it, `Reversed` below the ordinal, `Overflow` past the last time.
    pub fn after(self, edges: u64) -> Result<Time, Refusal>
        ensures { result ≡ after_of self edges }
    {
        if self.has_zero() {
            return Err(Refusal::ZeroFrequency);
        }
        if edges < self.ordinal {
            return Err(Refusal::Reversed);
        }
        let periods = periods_of(edges - self.ordinal, self.denominator);
        edge_of(self.start, self.numerator, periods, self.fraction)
    }

    // The number of the last edge earlier than the limit, and the ordinal where none is, at most 2^64 - 1.
    fn count(self, limit: Time) -> u64
        requires { (0 < self.numerator) × (0 < self.denominator) }
        ensures { result ≡ edges_before self (time_of limit) }
    {
        let start = self.start;
        if start < limit {
            let since = limit.since(start);
            let more = since.periods(self.numerator, self.denominator, self.fraction);
            return capped_sum(self.ordinal, more);
        }
        self.ordinal
    }

    // The ordinal and how many edges after the start are earlier than the limit, at most 2^64 - 1; `ZeroFrequency` as `has_zero` has it.
    #[tactic(auto, using(crate::proofs::Laws::no_zero), unfolding(crate::specs::Clock::edges_before_of))]
    pub fn edges_before(self, limit: Time) -> Result<u64, Refusal>
        ensures { result ≡ edges_before_of self limit }
    {
        if self.has_zero() {
            return Err(Refusal::ZeroFrequency);
        }
        Ok(self.count(limit))
    }

    // The clock with its start moved up by so many edges; `ZeroFrequency` as `has_zero` has it, `Overflow` where the new start or ordinal
    // leaves its width.
    pub fn advance(self, edges: u64) -> Result<Clock, Refusal>
        ensures { result ≡ move_of edges self }
    {
        if self.has_zero() {
            return Err(Refusal::ZeroFrequency);
        }
        let ordinal = sum(self.ordinal, edges);
        if ordinal.high != 0 {
            return Err(Refusal::Overflow);
        }
        let periods = periods_of(edges, self.denominator);
        let fraction = left_over(self.numerator, periods, self.fraction);
        let start = edge_of(self.start, self.numerator, periods, self.fraction)?;
        Ok(Clock {
            start,
            ordinal: ordinal.low,
            fraction,
            ..self
        })
    }
}
