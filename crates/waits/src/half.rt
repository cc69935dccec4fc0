// Waits of half clocks of the system clock.
ghost use Rattle.std.specs.Prelude.{◌≡◌};
ghost use Rattle.waits.specs.Half.{half_after, half_deadline, half_pause, half_resume, half_longer};

use super::HalfWait;
use counts::checked_add;
use domain::Domain;
use refusals::Refusal;
use time::Time;

impl HalfWait {
    // So many half clocks from now on; a sum past 64 bits is `HalfSum`.
    #[tactic(auto, unfolding(crate::specs::Half::half_after))]
    pub fn after(now: Time, halves: u64, system: Domain) -> Result<HalfWait, Refusal>
        ensures { result ≡ half_after now halves system }
    {
        let at = system.half_ticks(now)?;
        let count = at.checked_add(halves).ok_or(Refusal::HalfSum)?;
        Ok(HalfWait {
            count,
            paused: false,
        })
    }

    // The time at which the wait ends.
    #[tactic(auto, unfolding(crate::specs::Half::half_deadline, clocks::specs::Wait::dated))]
    pub fn deadline(self, system: Domain) -> Result<Option<Time>, Refusal>
        ensures { result ≡ half_deadline self system }
    {
        let runs = !self.paused & system.running;
        if runs {
            return Ok(Some(system.half_edge(self.count)?));
        }
        Ok(None)
    }

    #[tactic(auto, unfolding(crate::specs::Half::half_pause, crate::specs::Half::difference_of))]
    pub fn pause(self, now: Time, system: Domain) -> Result<HalfWait, Refusal>
        ensures { result ≡ half_pause self now system }
    {
        if self.paused {
            return Ok(self);
        }
        let at = system.half_ticks(now)?;
        let count = self.count.checked_sub(at).ok_or(Refusal::Reversed)?;
        Ok(HalfWait {
            count,
            paused: true,
        })
    }

    #[tactic(auto, unfolding(crate::specs::Half::half_resume))]
    pub fn resume(self, now: Time, system: Domain) -> Result<HalfWait, Refusal>
        ensures { result ≡ half_resume self now system }
    {
        if self.paused {
            return HalfWait::after(now, self.count, system);
        }
        Ok(self)
    }

    // So many half clocks more, running or paused; a sum past 64 bits is `Overflow`.
    pub fn longer(self, halves: u64) -> Result<HalfWait, Refusal>
        ensures { result ≡ half_longer self halves }
    {
        let count = checked_add(self.count, halves)?;
        Ok(HalfWait { count, ..self })
    }
}
