// The fall of SCL.
ghost use Rattle.std.specs.Prelude.{◌≡◌};
ghost use Rattle.sensor.specs.Falling.{acknowledge_of, falling_of, follow_of, heard_of, launch_of, send_of};
ghost use Rattle.sensor.specs.State.{sent, sent_bit};

use super::edges::{asking, plain};
use super::{Edge, Effect, Following, Outside, Phase, Receive, State};

// The byte that goes over the line; where none was prepared SDA stays released.
fn sent(tx: Option<u8>) -> u8
    ensures { result ≡ sent tx }
{
    tx.unwrap_or(0xff)
}

// The bit of a byte that goes over the line after so many others.
#[tactic(auto, unfolding(crate::specs::State::sent_bit))]
fn sent_bit(sampled: u8, byte: u8) -> bool
    ensures { result ≡ sent_bit sampled byte }
{
    bus::first_bit(byte << (sampled % 8))
}

impl State {
    // The next byte is prepared, and its first bit shown.
    #[tactic(auto, unfolding(crate::specs::Falling::launch_of))]
    fn launched(self, prepared: Option<u8>) -> Edge
        ensures { result ≡ launch_of prepared self }
    {
        let low = !bus::first_bit(sent(prepared));
        let shown = State {
            phase: Phase::Read { sampled: 0 },
            low,
            ..self
        };
        asking(Some(Effect::Prepare(self.pointer)), shown, prepared)
    }

    // The acknowledge is over.
    #[tactic(auto, unfolding(crate::specs::Falling::follow_of))]
    fn follow(self, following: Following, outside: Outside) -> Edge
        ensures { result ≡ follow_of following outside self }
    {
        match following {
            Following::Control => plain(self.at(Phase::Receive(Receive::Control)), outside.tx),
            Following::Data => plain(self.at(Phase::Receive(Receive::Data)), outside.tx),
            Following::Read => self.launched(outside.prepared),
            Following::Idle => plain(self.at(Phase::Idle), outside.tx),
        }
    }

    // SDA is pulled from the eighth fall to the ninth.
    #[tactic(auto, unfolding(crate::specs::Falling::acknowledge_of))]
    fn acknowledge(mut self, following: Following, edge: u8, outside: Outside) -> Edge
        ensures { result ≡ acknowledge_of following edge outside self }
    {
        let pulls = edge == 0;
        if pulls {
            return plain(
                State {
                    phase: Phase::Acknowledge { following, edge: 1 },
                    low: true,
                    ..self
                },
                outside.tx,
            );
        }
        let over = edge == 2;
        if over {
            self.low = false;
            return self.follow(following, outside);
        }
        plain(self, outside.tx)
    }

    // The next bit is shown; after the last one SDA is released for the master's acknowledge.
    #[tactic(auto, unfolding(crate::specs::Falling::send_of))]
    fn send(self, sampled: u8, tx: Option<u8>) -> State
        ensures { result ≡ send_of sampled tx self }
    {
        let through = sampled == 8;
        if through {
            return State {
                phase: Phase::MasterAcknowledge(None),
                low: false,
                ..self
            };
        }
        State {
            low: !sent_bit(sampled, sent(tx)),
            ..self
        }
    }

    // The master has acknowledged, or not.
    #[tactic(auto, unfolding(crate::specs::Falling::heard_of))]
    fn heard(self, heard: Option<bool>, outside: Outside) -> Edge
        ensures { result ≡ heard_of heard outside self }
    {
        match heard {
            None => plain(self, outside.tx),
            Some(true) => self.launched(outside.prepared),
            Some(false) => plain(self.abort(), outside.tx),
        }
    }

    #[tactic(auto, unfolding(crate::specs::Falling::falling_of))]
    pub(crate) fn falling(self, outside: Outside) -> Edge
        ensures { result ≡ falling_of self.phase outside self }
    {
        let phase = self.phase;
        match phase {
            Phase::Idle | Phase::Receive(_) => plain(self, outside.tx),
            Phase::Acknowledge { following, edge } => self.acknowledge(following, edge, outside),
            Phase::Read { sampled } => plain(self.send(sampled, outside.tx), outside.tx),
            Phase::MasterAcknowledge(heard) => self.heard(heard, outside),
        }
    }
}
