// The states of the units, which moment is next, and what the units drive.
ghost use Rattle.std.specs.Prelude.{◌≡◌};
ghost use Rattle.bench.specs.Moments.{driven_by, moment_of, named_by, state_at, wires_of};

use super::Bench;
use super::peripherals::{Peripherals, Unit};
use bus::{Levels, wired};
use iic::Iic;
use refusals::Refusal;
use time::Time;
use units::{driven, names, released};
use waits::ends::sooner;

impl Bench {
    // The state of a unit.
    pub(crate) fn state(self, unit: Unit) -> Iic
        ensures { result ≡ state_at self unit.digit }
    {
        self.states[unit.digit as usize]
    }

    #[tactic(auto, unfolding(crate::specs::Moments::named_by))]
    fn named_by(
        self,
        u: u8,
        all: Peripherals,
        present: Option<Time>,
    ) -> Result<Option<Time>, Refusal>
        ensures { result ≡ named_by all.clocks all.count present self u }
    {
        match all.unit(u) {
            Some(unit) => names(self.state(unit), self.place.mark(unit), present, all.clocks),
            None => Ok(None),
        }
    }

    // The earliest moment that a unit names, or the next script line, where that names one.
    pub(crate) fn moment(
        self,
        all: Peripherals,
        present: Option<Time>,
        line: Result<Option<Time>, Refusal>,
    ) -> Result<Option<Time>, Refusal>
        ensures { result ≡ moment_of all.clocks all.count present line self }
    {
        let mut moment = line;
        for u in (0..4).rev() {
            moment = sooner(self.named_by(u, all, present), moment);
        }
        moment
    }

    #[tactic(auto, unfolding(crate::specs::Moments::driven_by))]
    fn driven_by(self, u: u8, all: Peripherals) -> Levels
        ensures { result ≡ driven_by all.count self u }
    {
        match all.unit(u) {
            Some(unit) => driven(self.state(unit).pins()),
            None => released(),
        }
    }

    // The levels of the wires.
    pub(crate) fn wires(self, all: Peripherals) -> Levels
        ensures { result ≡ wires_of all.count self }
    {
        let mut wires = released();
        for u in 0..4 {
            wires = wired(wires, self.driven_by(u, all));
        }
        wires
    }
}
