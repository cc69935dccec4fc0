// A stage of a prescaler, one of 1 to 13.
ghost use Rattle.std.specs.Prelude.{◌≡◌, ◌-◌, ◌^◌, ◌<◌, ◌≤◌, min, true, MatchResult};
ghost use Rattle.prescaler.specs.Prescaler.{crossed, outside};
ghost use Rattle.refusals.specs.declared.Refusal.TheVariants.{NoStage};

use refusals::Refusal;

// Stage s divides by 2^s.
#[derive(Clone, Copy)]
pub(crate) struct Stage {
    pub(crate) shift: u32,
    ghost within: { (1 ≤ shift) × (shift ≤ 13) },
}

impl Stage {
    // The stage of that number among the first 13 of so many, or `NoStage` where it is none of them.
    pub(crate) fn of(stages: usize, shift: u32) -> Result<Stage, Refusal>
        ensures { MatchResult result (λ s. (s.shift ≡ shift) × (1 ≤ shift) × (shift ≤ min stages 13)) (λ r. (r ≡ NoStage) × (outside (min stages 13) shift ≡ true)) }
    {
        if (shift == 0) | (stages.min(13) < shift as usize) {
            return Err(Refusal::NoStage);
        }
        Ok(Stage { shift })
    }

    // Where its count stands among those of all stages.
    pub(crate) fn index(self) -> usize
        ensures { result ≡ self.shift - 1 }
    {
        self.shift as usize - 1
    }

    // How many of its parent's edges it takes to one of its own.
    pub(crate) fn step(self) -> u64
        ensures { result ≡ 2 ^ self.shift }
    {
        1u64 << self.shift
    }

    // How often a counter that stands at the phase passes a multiple of the step in that many edges.
    pub(crate) fn crossings(self, phase: u16, elapsed: u64) -> u64
        ensures { result ≡ crossed phase elapsed self.shift }
    {
        let step = self.step();
        elapsed / step + ((phase as u64) % step + elapsed % step) / step
    }
}
