// The edges after the one that a wait is for: a later one, and how many come before an end.
ghost use Rattle.std.specs.Prelude.{◌≡◌};
ghost use Rattle.clocks.specs.Wait.{made_deadline, later_running, wait_later_edge, edges_running, wait_edges_before};

use super::Clocks;
use super::tap::Tap;
use super::wait::{ClockWait, WaitState};
use counts::checked_add;
use refusals::Refusal;
use time::Time;

// The time of the edge so many after the one that a running wait is for; never inlined, since its room would be cleared for every wait.
#[tactic(auto, unfolding(crate::specs::Wait::later_running, crate::specs::Wait::later_target, crate::specs::Wait::dated))]
#[inline(never)]
fn later_running(tap: Tap, clocks: Clocks, count: u64, target: u64) -> Result<Option<Time>, Refusal>
    ensures { result ≡ later_running tap clocks count target }
{
    if !clocks.available(tap)? {
        return Ok(None);
    }
    let tick = checked_add(target, count)?;
    Ok(Some(clocks.edge(tick, tap)?))
}

// The deadline of a wait that was started; never inlined, as above.
#[tactic(auto, unfolding(crate::specs::Wait::made_deadline))]
#[inline(never)]
fn made_deadline(clocks: Clocks, made: Result<ClockWait, Refusal>) -> Result<Option<Time>, Refusal>
    ensures { result ≡ made_deadline clocks made }
{
    made?.deadline(clocks)
}

impl ClockWait {
    #[tactic(auto, unfolding(crate::specs::Wait::wait_later_edge))]
    pub fn later_edge(self, count: u64, clocks: Clocks) -> Result<Option<Time>, Refusal>
        ensures { result ≡ wait_later_edge self count clocks }
    {
        if count == 0 {
            return self.deadline(clocks);
        }
        if clocks.has_zero() {
            return Err(Refusal::ZeroFrequency);
        }
        match self.state {
            WaitState::Running(target) => later_running(self.tap, clocks, count, target),
            WaitState::Paused(_) => Ok(None),
            WaitState::Ready(at) => made_deadline(
                clocks,
                ClockWait::after(at, count, self.tap, clocks),
            ),
        }
    }

    // Of the edges from `target` on, how many come before the end, while the tap is available.
    #[tactic(auto, unfolding(crate::specs::Wait::edges_running, crate::specs::Wait::before_end, crate::specs::Wait::upcoming))]
    fn edges_running(self, end: Time, clocks: Clocks, target: u64) -> Result<u64, Refusal>
        ensures { result ≡ edges_running self end clocks target }
    {
        if !clocks.available(self.tap)? {
            return Ok(0);
        }
        let unit = Time {
            seconds: 0,
            fraction: 1,
        };
        let Ok(last) = end.duration_since(unit) else {
            return Ok(0);
        };
        let next = checked_add(clocks.ticks(last, self.tap)?, 1)?;
        Ok(next.saturating_sub(target))
    }

    #[tactic(auto, unfolding(crate::specs::Wait::wait_edges_before))]
    pub fn edges_before(self, end: Time, clocks: Clocks) -> Result<u64, Refusal>
        ensures { result ≡ wait_edges_before self end clocks }
    {
        if clocks.has_zero() {
            return Err(Refusal::ZeroFrequency);
        }
        match self.state {
            WaitState::Running(target) => self.edges_running(end, clocks, target),
            WaitState::Paused(_) | WaitState::Ready(_) => Ok(0),
        }
    }
}
