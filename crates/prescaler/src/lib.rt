// The ripple dividers: prescaler S of 13 stages behind the system clock, prescaler W of 8 behind the watch clock. Stage s divides by 2^s. A
// phase of 16 bits is that of no more than 13 stages, and of more only these are looked at.
#![tactic(auto)]

ghost use Rattle.std.specs.Prelude.{◌≡◌, ◌+◌, ◌-◌, ◌*◌, ◌%◌, ◌^◌, ltb, min};
ghost use Rattle.counts.specs.Counts.{fits};
ghost use Rattle.prescaler.specs.Prescaler.{fresh, fresh_of, elapsed, crossed, stage_crossings, stage_ticks, stage_high, parent_edge, stage_edge};

mod stage;

use counts::{checked_add, checked_mul};
use refusals::Refusal;
use stage::Stage;

// What the stages of a prescaler share: the parent's count when the phase was settled, the phase then, and whether it counts.
#[derive(Clone, Copy, Debug, PartialEq, Eq)]
pub struct Divider {
    pub anchor: u64,
    pub phase: u16,
    pub running: bool,
}

// A divider, and how many edges each of its stages had given at the anchor.
#[derive(Clone, Copy, Debug, PartialEq, Eq)]
pub struct Prescaler<const STAGES: usize> {
    pub divider: Divider,
    pub emitted: [u64; STAGES],
}

pub type PrescalerS = Prescaler<13>;

pub type PrescalerW = Prescaler<8>;

impl Divider {
    fn new() -> Divider
        ensures { result ≡ fresh }
    {
        Divider {
            anchor: 0,
            phase: 0,
            running: true,
        }
    }

    // The parent's edges since the anchor.
    #[tactic(auto, unfolding(crate::specs::Prescaler::elapsed))]
    fn elapsed(self, parent: u64) -> u64
        ensures { result ≡ elapsed self parent }
    {
        if self.running {
            parent.saturating_sub(self.anchor)
        } else {
            0
        }
    }

    // The edges of a stage that had given `emitted` at the anchor.
    fn ticks(self, emitted: u64, parent: u64, stage: Stage) -> Result<u64, Refusal>
        ensures { result ≡ fits (emitted + crossed self.phase (elapsed self parent) stage.shift) }
    {
        let edges = self.elapsed(parent);
        checked_add(emitted, stage.crossings(self.phase, edges))
    }

    fn high(self, parent: u64, stage: Stage) -> bool
        ensures { result ≡ ltb ((self.phase + elapsed self parent) % 2 ^ stage.shift) (2 ^ (stage.shift - 1)) }
    {
        let edges = self.elapsed(parent);
        let step = stage.step();
        let half = 1u64 << (stage.shift - 1);
        ((self.phase as u64) % step + edges % step) % step < half
    }

    // The parent's edge that is the edge of that number of a stage that had given `emitted` at the anchor.
    #[tactic(auto, unfolding(crate::specs::Prescaler::parent_edge, counts::specs::Counts::fits))]
    fn parent_edge(self, emitted: u64, tick: u64, stage: Stage) -> Result<u64, Refusal>
        ensures { result ≡ parent_edge self emitted tick stage.shift }
    {
        let edges = tick.checked_sub(emitted).ok_or(Refusal::Reversed)?;
        let step = stage.step();
        let past = (self.phase as u64) % step;
        let start = self.anchor.checked_sub(past).ok_or(Refusal::Overflow)?;
        checked_add(start, checked_mul(edges, step)?)
    }
}

impl<const STAGES: usize> Prescaler<STAGES> {
    pub fn new() -> Self
        ensures { result ≡ fresh_of STAGES }
    {
        Prescaler {
            divider: Divider::new(),
            emitted: [0; STAGES],
        }
    }

    #[tactic(auto, unfolding(crate::specs::Prescaler::stage_crossings))]
    pub fn crossings(phase: u16, elapsed: u64, shift: u32) -> Result<u64, Refusal>
        ensures { result ≡ stage_crossings (min STAGES 13) phase elapsed shift }
    {
        let stage = Stage::of(STAGES, shift)?;
        Ok(stage.crossings(phase, elapsed))
    }

    #[tactic(auto, unfolding(crate::specs::Prescaler::stage_ticks))]
    pub fn ticks(self, parent: u64, shift: u32) -> Result<u64, Refusal>
        ensures { result ≡ stage_ticks (min STAGES 13) self.entry.divider self.entry.emitted parent shift }
    {
        let stage = Stage::of(STAGES, shift)?;
        let emitted = self.emitted;
        self.divider.ticks(emitted[stage.index()], parent, stage)
    }

    #[tactic(auto, unfolding(crate::specs::Prescaler::stage_high))]
    pub fn high(self, parent: u64, shift: u32) -> Result<bool, Refusal>
        ensures { result ≡ stage_high (min STAGES 13) self.entry.divider parent shift }
    {
        let stage = Stage::of(STAGES, shift)?;
        Ok(self.divider.high(parent, stage))
    }

    #[tactic(auto, unfolding(crate::specs::Prescaler::stage_edge))]
    pub fn parent_edge(self, tick: u64, shift: u32) -> Result<u64, Refusal>
        ensures { result ≡ stage_edge (min STAGES 13) self.entry.divider self.entry.emitted tick shift }
    {
        let stage = Stage::of(STAGES, shift)?;
        let emitted = self.emitted;
        self.divider
            .parent_edge(emitted[stage.index()], tick, stage)
    }
}
