// What a state must meet.
ghost use Rattle.std.specs.Prelude.{◌≡◌};
ghost use Rattle.iic.specs.Checks.{fell_by, halves_refusal, progress_holds};

use super::Iic;
use frames::parts::progress_holds;
use refusals::Refusal;
use time::Time;
use waits::ends::is_short;

impl Iic {
    // An eighth fall isn't later than now.
    pub(crate) fn fell_by(self, now: Time) -> bool
        ensures { result ≡ fell_by self.eighth_fall now }
    {
        self.eighth_fall.is_none_or(|t| !now.before(t))
    }

    // A frame has as many bits to go as its phase allows.
    pub(crate) fn progress(self) -> bool
        ensures { result ≡ progress_holds self }
    {
        progress_holds(self.frame)
    }

    // A half count near the top is refused.
    pub(crate) fn halves_refusal(self) -> Result<(), Refusal>
        ensures { result ≡ halves_refusal self }
    {
        if is_short(self.clock_wait) & is_short(self.monitor_wait) {
            Ok(())
        } else {
            Err(Refusal::HalfCount)
        }
    }
}
