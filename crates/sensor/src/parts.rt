// Tests and parts of the parser's state.
ghost use Rattle.std.specs.Prelude.{◌≡◌};
ghost use Rattle.sensor.specs.State.{acknowledging, fits_in, is_acknowledge, is_idle, set_phase, sound_of};

use super::{Following, Phase, State};

// Whether so many bits, fewer than eight, hold a number.
fn fits(shift: u8, bits: u8) -> bool
    ensures { result ≡ fits_in shift bits }
{
    (bits < 8) & ((shift as u16) < (1u16 << (bits % 8)))
}

impl Phase {
    pub(crate) fn is_idle(self) -> bool
        ensures { result ≡ is_idle self }
    {
        matches!(self, Phase::Idle)
    }

    pub(crate) fn is_acknowledge(self) -> bool
        ensures { result ≡ is_acknowledge self }
    {
        matches!(self, Phase::Acknowledge { .. })
    }
}

impl State {
    pub(crate) fn at(self, phase: Phase) -> State
        ensures { result ≡ set_phase phase self }
    {
        State { phase, ..self }
    }

    // The byte before was whole.
    pub(crate) fn acknowledging(self, following: Following) -> State
        ensures { result ≡ acknowledging following self }
    {
        self.at(Phase::Acknowledge { following, edge: 0 })
    }

    // What the phase asks of the other fields.
    #[tactic(auto, unfolding(crate::specs::State::sound_of))]
    pub(crate) fn sound(self) -> bool
        ensures { result ≡ sound_of self.phase self }
    {
        let phase = self.phase;
        let none = (self.bits == 0) & (self.shift == 0);
        match phase {
            Phase::Receive(_) => !self.low & fits(self.shift, self.bits),
            Phase::Acknowledge { following: _, edge } => none
                & (edge < 3)
                & (self.low == (edge != 0)),
            Phase::Read { sampled } => none & (sampled < 9),
            Phase::Idle | Phase::MasterAcknowledge(_) => none & !self.low,
        }
    }
}
