// The peripherals of a bench, and the number of one of them.
ghost use Rattle.std.specs.Prelude.{◌≡◌, ◌≤◌, ◌<◌, true, false, MatchOption};
ghost use Rattle.bench.specs.Bench.{is_count};

use clocks::Clocks;

// How many peripherals are on the wires, and the clock set that they run on.
#[derive(Clone, Copy)]
pub(crate) struct Peripherals {
    pub(crate) count: u8,
    pub(crate) clocks: Clocks,
    ghost few: { count ≤ 4 },
}

// A unit, a digit counted from 0, that a bench has room for.
#[derive(Clone, Copy)]
pub(crate) struct Unit {
    pub(crate) digit: u8,
    ghost there: { digit < 4 },
}

impl Peripherals {
    // 1 to 4 of them.
    pub(crate) fn new(count: usize, clocks: Clocks) -> Option<Peripherals>
        ensures { MatchOption result (is_count count ≡ false) (λ p. (is_count count ≡ true) × (p.count ≡ count) × (p.clocks ≡ clocks)) }
    {
        let there = (1 <= count) & (count <= 4);
        if there {
            Some(Peripherals {
                count: count as u8,
                clocks,
            })
        } else {
            None
        }
    }

    // The unit of a number, where it is on the wires.
    pub(crate) fn unit(self, u: u8) -> Option<Unit>
        ensures { MatchOption result (self.count ≤ u) (λ unit. (u < self.count) × (unit.digit ≡ u)) }
    {
        if u < self.count {
            Some(Unit { digit: u })
        } else {
            None
        }
    }
}
