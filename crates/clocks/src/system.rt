// Waits for edges of the system clock itself, on the tap system/1: they look at the system domain alone.
ghost use Rattle.std.specs.Prelude.{◌≡◌};
ghost use Rattle.clocks.specs.System.{domain_deadline, system_after, on_system, system_deadline};

use super::tap::Tap;
use super::wait::{ClockWait, WaitState};
use counts::checked_add;
use domain::Domain;
use refusals::Refusal;
use time::Time;

// The time of the edge of that number of the domain's own clock, while it runs.
#[tactic(auto, unfolding(crate::specs::System::domain_deadline, crate::specs::Wait::dated, counts::specs::Counts::fits))]
fn domain_deadline(domain: Domain, tick: u64) -> Result<Option<Time>, Refusal>
    ensures { result ≡ domain_deadline domain tick }
{
    if domain.running {
        Ok(Some(domain.clock.after(tick)?))
    } else {
        Ok(None)
    }
}

impl ClockWait {
    // `after` on the tap system/1.
    #[tactic(auto, unfolding(crate::specs::System::system_after, crate::specs::System::system_started_at, crate::specs::Wait::started_by))]
    pub fn system_after(now: Time, edges: u64, system: Domain) -> Result<ClockWait, Refusal>
        ensures { result ≡ system_after now edges system }
    {
        if system.has_zero() {
            return Err(Refusal::ZeroFrequency);
        }
        if edges == 0 {
            return Ok(ClockWait {
                tap: Tap::system(1),
                state: WaitState::Ready(now),
            });
        }
        let target = checked_add(system.ticks(now)?, edges)?;
        domain_deadline(system, target)?;
        Ok(ClockWait {
            tap: Tap::system(1),
            state: WaitState::Running(target),
        })
    }

    // Whether the wait is on the tap system/1.
    pub fn on_system(self) -> bool
        ensures { result ≡ on_system self }
    {
        self.uses(Tap::system(1))
    }

    // `deadline` of such a wait: the tap isn't looked at.
    #[tactic(auto, unfolding(crate::specs::System::system_deadline))]
    pub fn system_deadline(self, system: Domain) -> Result<Option<Time>, Refusal>
        ensures { result ≡ system_deadline self system }
    {
        if system.has_zero() {
            return Err(Refusal::ZeroFrequency);
        }
        match self.state {
            WaitState::Running(target) => domain_deadline(system, target),
            WaitState::Paused(_) => Ok(None),
            WaitState::Ready(at) => Ok(Some(at)),
        }
    }
}
