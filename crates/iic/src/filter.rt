// The noise filter, and the levels as given.
ghost use Rattle.std.specs.Prelude.{◌≡◌};
ghost use Rattle.iic.specs.Filter.{filter_pass_of, observes, passed, unsettled};

use super::Iic;
use bus::Levels;

// A level passes the filter when two successive clocks see it.
fn passed(raw: bool, latch: bool, filtered: bool) -> bool
    ensures { result ≡ passed raw latch filtered }
{
    if raw == latch { raw } else { filtered }
}

impl Iic {
    #[tactic(auto, unfolding(crate::specs::Filter::filter_pass_of))]
    pub(crate) fn filter_pass(mut self) -> Iic
        ensures { result ≡ filter_pass_of self }
    {
        self.lines.filtered.scl = passed(
            self.lines.raw.scl,
            self.lines.latch.scl,
            self.lines.filtered.scl,
        );
        self.lines.filtered.sda = passed(
            self.lines.raw.sda,
            self.lines.latch.sda,
            self.lines.filtered.sda,
        );
        self.lines.latch = self.lines.raw;
        self
    }

    pub(crate) fn observes(self, given: Levels) -> bool
        ensures { result ≡ observes self given }
    {
        (self.lines.raw != given) & self.awake()
    }

    // A level is still on its way through the filter.
    pub(crate) fn unsettled(self) -> bool
        ensures { result ≡ unsettled self }
    {
        (self.lines.raw != self.lines.latch) | (self.lines.latch != self.lines.filtered)
    }
}
