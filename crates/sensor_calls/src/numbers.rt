// Numbers for enums, in the order of the Rust's variants. A number that stands for no case counts as the last. `Receive` and `Following`
// are read by functions, since an `impl From<u8>` can stand only in their own crate, which knows nothing of words.
ghost use Rattle.std.specs.Prelude.{◌≡◌};
ghost use Rattle.sensor_calls.specs.Given.{following_at, kind_at, phase_at};
ghost use Rattle.sensor_calls.specs.Left.{asked, phased};

use sensor::{Effect, Following, Phase, Receive};

// Which phase, and the two numbers that it holds.
#[derive(Clone, Copy)]
pub(crate) struct Phased {
    pub phase: u8,
    pub first: u8,
    pub second: u8,
}

// What is asked, 0 where nothing is, and the pointer and the byte that go with it.
#[derive(Clone, Copy)]
pub(crate) struct Asked {
    pub number: u8,
    pub pointer: u8,
    pub byte: u8,
}

fn kind_of(n: u8) -> Receive
    ensures { result ≡ kind_at n }
{
    match n {
        0 => Receive::Address,
        1 => Receive::Control,
        _ => Receive::Data,
    }
}

fn following_of(n: u8) -> Following
    ensures { result ≡ following_at n }
{
    match n {
        0 => Following::Control,
        1 => Following::Data,
        2 => Following::Read,
        _ => Following::Idle,
    }
}

impl From<Phased> for Phase {
    ghost from_gives = { λ n p. p ≡ phase_at n.phase n.first n.second };

    #[tactic(auto, unfolding(crate::specs::Given::phase_at))]
    fn from(numbers: Phased) -> Phase {
        let Phased {
            phase,
            first,
            second,
        } = numbers;
        match phase {
            0 => Phase::Idle,
            1 => Phase::Receive(kind_of(first)),
            2 => Phase::Acknowledge {
                following: following_of(first),
                edge: second,
            },
            3 => Phase::Read { sampled: first },
            _ => Phase::MasterAcknowledge((first == 1).then_some(second == 1)),
        }
    }
}

impl From<Phase> for Phased {
    ghost from_gives = { λ p n. n ≡ phased p };

    fn from(phase: Phase) -> Phased {
        let (phase, first, second) = match phase {
            Phase::Idle => (0, 0, 0),
            Phase::Receive(kind) => (1, kind as u8, 0),
            Phase::Acknowledge { following, edge } => (2, following as u8, edge),
            Phase::Read { sampled } => (3, sampled, 0),
            Phase::MasterAcknowledge(heard) => {
                (4, u8::from(heard.is_some()), u8::from(heard == Some(true)))
            }
        };
        Phased {
            phase,
            first,
            second,
        }
    }
}

impl From<Option<Effect>> for Asked {
    ghost from_gives = { λ e n. n ≡ asked e };

    fn from(effect: Option<Effect>) -> Asked {
        let (number, pointer, byte) = match effect {
            None => (0, 0, 0),
            Some(Effect::Write(pointer, byte)) => (1, pointer, byte),
            Some(Effect::Prepare(pointer)) => (2, pointer, 0),
            Some(Effect::Acknowledge(pointer)) => (3, pointer, 0),
        };
        Asked {
            number,
            pointer,
            byte,
        }
    }
}
