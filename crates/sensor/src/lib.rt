// The accelerometer's end of the wires (devices/bma150/i2c.rs): what its parser makes of each pair of levels, where it pulls SDA,
// and what it asks of the rest of the sensor. What the rest answers goes in as values.
#![tactic(auto)]

mod edges;
mod falling;
mod parts;
mod rising;

ghost use Rattle.std.specs.Prelude.{◌≡◌, true, not};
ghost use Rattle.bus.specs.Bus.{levels};
ghost use Rattle.sensor.specs.Edge.{consumes_of, effect_of, edge_of};
ghost use Rattle.sensor.specs.State.{abort_of, effect_edges_of, fresh_state, is_idle_of, validate_of};

use bus::Levels;
use edges::plain;

// Which byte is on its way in.
#[derive(Clone, Copy, PartialEq, Eq)]
pub enum Receive {
    Address,
    Control,
    Data,
}

// What comes after an acknowledge.
#[derive(Clone, Copy, PartialEq, Eq)]
pub enum Following {
    Control,
    Data,
    Read,
    Idle,
}

#[derive(Clone, Copy, Default, PartialEq, Eq)]
pub enum Phase {
    #[default]
    Idle,
    Receive(Receive),
    // 0: the eighth clock has risen; 1: SDA is pulled; 2: the ninth clock has risen. A number and no enum, since a saved state comes
    // with any byte here, which `validate` refuses from 3 on (`sound_of`).
    Acknowledge { following: Following, edge: u8 },
    Read { sampled: u8 },
    // Whether the master acknowledged, once the ninth clock of a byte that was sent has risen.
    MasterAcknowledge(Option<bool>),
}

// The parser. It pulls SDA where `low`, and SCL never.
#[derive(Clone, Copy, Default, PartialEq, Eq)]
pub struct State {
    pub phase: Phase,
    pub pointer: u8,
    pub bits: u8,
    pub shift: u8,
    pub low: bool,
}

// The levels of the wires before an edge, those that they settled at, and after it, before the sensor's own effect.
#[derive(Clone, Copy)]
pub struct Change {
    pub previous: Levels,
    pub current: Levels,
}

// What the rest of the sensor says at an edge: whether it is blocked (selected for SPI, unpowered or not ready), whether a quiet
// time runs, what a write would answer (whether a quiet time runs after it), which byte would be prepared, if any, and the byte to
// send, `tx`, where one was.
#[derive(Clone, Copy)]
pub struct Outside {
    pub blocked: bool,
    pub quiet: bool,
    // The number of a refusal comes from the rest of the sensor, through C, and goes out as it came in: no enum has all of them.
    pub written: Result<bool, u8>,
    pub prepared: Option<u8>,
    pub tx: Option<u8>,
}

// What an edge asks of the rest of the sensor: to write a byte at a pointer, to prepare the byte there, or to take note that it is
// being read.
#[derive(Clone, Copy)]
pub enum Effect {
    Write(u8, u8),
    Prepare(u8),
    Acknowledge(u8),
}

// What an edge leaves: the write's refusal by its number, as `Outside` hands it in, or whether a deadline may have changed; what is
// asked, if anything; and the byte to send, `tx`, where one was prepared. Where `cleared`, the rest of the sensor drops the pair and
// the shadow of a read (`tx_pair`, `tx_shadow`).
#[derive(Clone, Copy)]
pub struct Edge {
    pub answer: Result<bool, u8>,
    pub effect: Option<Effect>,
    pub cleared: bool,
    pub tx: Option<u8>,
    pub state: State,
}

impl State {
    // Before the first edge.
    pub fn new() -> State
        ensures { result ≡ fresh_state }
    {
        State::default()
    }

    // The levels that the sensor leaves the wires: SCL is released, and SDA pulled where `low`.
    pub fn pins(self) -> Levels
        ensures { result ≡ levels true (not self.low) }
    {
        Levels {
            scl: true,
            sda: !self.low,
        }
    }

    // Edges of SCL before one can change the parser; within a byte (8 - bits) * 2 - 1, modulo 256.
    #[tactic(auto, unfolding(crate::specs::State::effect_edges_of))]
    pub fn effect_edges(self) -> u8
        ensures { result ≡ effect_edges_of self.phase self.bits }
    {
        let phase = self.phase;
        match phase {
            Phase::Idle => 16,
            Phase::Receive(_) => 8u8.wrapping_sub(self.bits).wrapping_mul(2).wrapping_sub(1),
            _ => 1,
        }
    }

    // Waits for a start, with nothing kept but the pointer.
    pub fn idle(self) -> bool
        ensures { result ≡ is_idle_of self }
    {
        self == self.abort()
    }

    pub fn abort(self) -> State
        ensures { result ≡ abort_of self }
    {
        State {
            pointer: self.pointer,
            ..State::new()
        }
    }

    // Whether a saved state is one that the parser can be in.
    #[tactic(auto, unfolding(crate::specs::State::validate_of))]
    pub fn validate(self, available: bool) -> bool
        ensures { result ≡ validate_of available self }
    {
        let phase = self.phase;
        (self.pointer < 128) & (available | phase.is_idle()) & self.sound()
    }

    // Whether an edge wants the conversion brought up to the present time first.
    #[tactic(auto, unfolding(crate::specs::Edge::consumes_of))]
    pub fn consumes_conversion(self, change: Change, blocked: bool, quiet: bool) -> bool
        ensures { result ≡ consumes_of self change blocked quiet }
    {
        let phase = self.phase;
        let up = change.rises() & phase.takes_at_rise(self.bits);
        let down = change.falls() & phase.prepares_at_fall();
        !blocked & !quiet & (up | down)
    }

    // What an edge asks of the rest of the sensor, which doesn't depend on what that will answer.
    #[tactic(auto, unfolding(crate::specs::Edge::effect_of))]
    pub fn effect_at(self, change: Change, blocked: bool, quiet: bool) -> Option<Effect>
        ensures { result ≡ effect_of self change blocked quiet }
    {
        let outside = Outside {
            blocked,
            quiet,
            written: Ok(false),
            prepared: None,
            tx: None,
        };
        self.i2c_pins(change, outside).effect
    }

    // What an edge makes of the state.
    #[tactic(auto, unfolding(crate::specs::Edge::edge_of))]
    pub fn i2c_pins(self, change: Change, outside: Outside) -> Edge
        ensures { result ≡ edge_of self change outside }
    {
        if outside.blocked {
            return plain(self.abort(), outside.tx);
        }
        let starts = change.starts();
        let condition = starts | change.stops();
        if condition {
            return self.condition(starts & !outside.quiet);
        }
        let phase = self.phase;
        let ends = outside.quiet & !phase.is_acknowledge();
        if ends {
            return plain(self.abort(), outside.tx);
        }
        self.clocked(change, outside)
    }
}
