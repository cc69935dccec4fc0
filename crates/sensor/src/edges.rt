// What an edge leaves, which edges there are, and what starts, stops and clocks bring.
ghost use Rattle.std.specs.Prelude.{◌≡◌};
ghost use Rattle.sensor.specs.Edge.{begun_of, clocked_of, condition_of, falls_at, is_data, is_read_next, prepares_at_fall, rises_at, starts_at, stops_at, takes_at_rise};
ghost use Rattle.sensor.specs.Leaving.{asking, plain};

use super::{Change, Edge, Effect, Following, Outside, Phase, Receive, State};

impl Change {
    // SCL rises.
    pub(crate) fn rises(self) -> bool
        ensures { result ≡ rises_at self }
    {
        !self.previous.scl & self.current.scl
    }

    // SCL falls.
    pub(crate) fn falls(self) -> bool
        ensures { result ≡ falls_at self }
    {
        self.previous.scl & !self.current.scl
    }

    pub(crate) fn starts(self) -> bool
        ensures { result ≡ starts_at self }
    {
        bus::is_start(self.previous, self.current)
    }

    pub(crate) fn stops(self) -> bool
        ensures { result ≡ stops_at self }
    {
        bus::is_stop(self.previous, self.current)
    }
}

// Nothing is refused.
pub(crate) fn asking(effect: Option<Effect>, state: State, tx: Option<u8>) -> Edge
    ensures { result ≡ asking effect tx state }
{
    Edge {
        answer: Ok(false),
        effect,
        cleared: false,
        tx,
        state,
    }
}

// Nothing is asked either.
pub(crate) fn plain(state: State, tx: Option<u8>) -> Edge
    ensures { result ≡ plain tx state }
{
    asking(None, state, tx)
}

impl Phase {
    // A rise that reads the byte being sent, or makes a byte of data whole.
    #[tactic(auto, unfolding(crate::specs::Edge::takes_at_rise))]
    pub(crate) fn takes_at_rise(self, bits: u8) -> bool
        ensures { result ≡ takes_at_rise self bits }
    {
        match self {
            Phase::Receive(kind) => (kind == Receive::Data) & (bits == 7),
            Phase::Read { sampled } => sampled == 0,
            _ => false,
        }
    }

    // A fall after which a byte is sent.
    #[tactic(auto, unfolding(crate::specs::Edge::prepares_at_fall))]
    pub(crate) fn prepares_at_fall(self) -> bool
        ensures { result ≡ prepares_at_fall self }
    {
        match self {
            Phase::Acknowledge { following, edge } => (following == Following::Read) & (edge == 2),
            Phase::MasterAcknowledge(heard) => heard == Some(true),
            _ => false,
        }
    }
}

impl State {
    // A start that is taken, or none.
    fn begun(self, starts: bool) -> State
        ensures { result ≡ begun_of starts self }
    {
        if starts {
            self.abort().at(Phase::Receive(Receive::Address))
        } else {
            self.abort()
        }
    }

    // A start or a stop.
    pub(crate) fn condition(self, starts: bool) -> Edge
        ensures { result ≡ condition_of starts self }
    {
        Edge {
            cleared: true,
            ..plain(self.begun(starts), None)
        }
    }

    // SCL rises, falls, or stays.
    #[tactic(auto, unfolding(crate::specs::Edge::clocked_of))]
    pub(crate) fn clocked(self, change: Change, outside: Outside) -> Edge
        ensures { result ≡ clocked_of self change outside }
    {
        if change.rises() {
            return self.rising(change.current.sda, outside);
        }
        if change.falls() {
            return self.falling(outside);
        }
        plain(self, outside.tx)
    }
}
