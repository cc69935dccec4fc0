// A domain: one clock of the chip, running or held, with its counts, its level and its half counts. The names are those of
// mcu/clocks/domain.rs, and for level and half counts of mcu/clocks.rs.
#![tactic(auto)]

ghost use Rattle.std.specs.Prelude.{◌≡◌};
ghost use Rattle.domain.specs.Domain.{new_domain, shown, domain_time, domain_ticks, edge_or_last, high_between, level_high, domain_high, domain_half_ticks, domain_half_edge};
ghost use Rattle.time.specs.Clock.{zero_in};

use refusals::Refusal;
use time::{Clock, Time};

#[derive(Clone, Copy, Debug, PartialEq, Eq)]
pub struct Domain {
    pub clock: Clock,
    pub running: bool,
    pub held_at: Time,
}

// The clock's edge of that number, or the last time where that comes first.
#[tactic(auto, unfolding(crate::specs::Domain::edge_or_last))]
fn edge_or_last(clock: Clock, edges: u64) -> Time
    ensures { result ≡ edge_or_last clock edges }
{
    clock.after(edges).unwrap_or(Time {
        seconds: u64::MAX,
        fraction: u64::MAX,
    })
}

// Whether a clock with successive edges at `a` and `b` is high at the time.
#[tactic(auto, unfolding(crate::specs::Domain::high_between, time::specs::Time::earlier))]
fn high_between(now: Time, a: Time, b: Time) -> bool
    ensures { result ≡ high_between now a b }
{
    !(now < a) & (now < a.midway(b))
}

impl Domain {
    // A domain whose clock runs from now on.
    #[tactic(auto, unfolding(crate::specs::Domain::new_domain))]
    pub fn new(now: Time, hz: u64, divide: u64) -> Result<Domain, Refusal>
        ensures { result ≡ new_domain now hz divide }
    {
        let clock = Clock::new(now, hz, divide)?;
        Ok(Domain {
            clock,
            running: true,
            held_at: now,
        })
    }

    pub fn has_zero(self) -> bool
        ensures { result ≡ zero_in self.clock }
    {
        self.clock.has_zero()
    }

    // The time that the domain's clock shows.
    fn shown(self, now: Time) -> Time
        ensures { result ≡ shown self now }
    {
        if self.running { now } else { self.held_at }
    }

    #[tactic(auto, unfolding(crate::specs::Domain::domain_time))]
    pub fn time(self, now: Time) -> Result<Time, Refusal>
        ensures { result ≡ domain_time self now }
    {
        if self.has_zero() {
            return Err(Refusal::ZeroFrequency);
        }
        Ok(self.shown(now))
    }

    #[tactic(auto, unfolding(crate::specs::Domain::domain_ticks))]
    pub fn ticks(self, now: Time) -> Result<u64, Refusal>
        ensures { result ≡ domain_ticks self now }
    {
        if self.has_zero() {
            return Err(Refusal::ZeroFrequency);
        }
        if self.running {
            self.clock.edges_before(now.next())
        } else {
            Ok(self.clock.ordinal)
        }
    }

    // The level of the domain's own clock, where so many edges were counted.
    #[tactic(auto, unfolding(crate::specs::Domain::level_high))]
    pub fn level_high(self, now: Time, count: u64) -> Result<bool, Refusal>
        ensures { result ≡ level_high self now count }
    {
        if count == u64::MAX {
            return Err(Refusal::Overflow);
        }
        let at = self.shown(now);
        let a = edge_or_last(self.clock, count);
        let b = edge_or_last(self.clock, count + 1);
        Ok(high_between(at, a, b))
    }

    // The same, of a domain that is handed in.
    #[tactic(auto, unfolding(crate::specs::Domain::domain_high))]
    pub fn high(self, now: Time, count: u64) -> Result<bool, Refusal>
        ensures { result ≡ domain_high self now count }
    {
        if self.has_zero() {
            return Err(Refusal::ZeroFrequency);
        }
        self.level_high(now, count)
    }

    // The half count: twice the count, and one more while the clock isn't high.
    #[tactic(auto, unfolding(crate::specs::Domain::domain_half_ticks, crate::specs::Domain::halves_of, crate::specs::Domain::halves))]
    pub fn half_ticks(self, now: Time) -> Result<u64, Refusal>
        ensures { result ≡ domain_half_ticks self now }
    {
        let count = self.ticks(now)?;
        if 0x8000_0000_0000_0000 <= count {
            return Err(Refusal::Overflow);
        }
        let high = self.level_high(now, count)?;
        Ok(if high { 2 * count } else { 2 * count + 1 })
    }

    // The half edge of that number.
    #[tactic(auto, unfolding(crate::specs::Domain::domain_half_edge, crate::specs::Domain::odd_edge))]
    pub fn half_edge(self, tick: u64) -> Result<Time, Refusal>
        ensures { result ≡ domain_half_edge self tick }
    {
        let a = self.clock.after(tick / 2)?;
        if tick % 2 == 0 {
            return Ok(a);
        }
        let b = self.clock.after(tick / 2 + 1)?;
        Ok(a.midway(b))
    }
}
