// The rise of SCL.
ghost use Rattle.std.specs.Prelude.{◌≡◌};
ghost use Rattle.sensor.specs.Rising.{addressed_of, asked_by, counted_of, read_on_of, rising_of, sampled_of, whole_of, written_next, wrote_of};

use super::edges::{asking, plain};
use super::{Edge, Effect, Following, Outside, Phase, Receive, State};

// The sensor's address, bits 1 to 7 of an address byte.
const ADDRESS: u8 = 0x38;

fn asked_by(byte: u8) -> Following
    ensures { result ≡ asked_by byte }
{
    if bus::is_read(byte) {
        Following::Read
    } else {
        Following::Control
    }
}

// A write that begins a quiet time, as a reset does, ends the transfer after its acknowledge.
fn written_next(quiet: bool) -> Following
    ensures { result ≡ written_next quiet }
{
    if quiet {
        Following::Idle
    } else {
        Following::Control
    }
}

impl State {
    // An address that isn't the sensor's gets no acknowledge.
    #[tactic(auto, unfolding(crate::specs::Rising::addressed_of))]
    fn addressed(self, byte: u8) -> State
        ensures { result ≡ addressed_of byte self }
    {
        let own = byte / 2 == ADDRESS;
        if own {
            self.acknowledging(asked_by(byte))
        } else {
            self
        }
    }

    #[tactic(auto, unfolding(crate::specs::Rising::wrote_of))]
    fn wrote(self, byte: u8, tx: Option<u8>, written: Result<bool, u8>) -> Edge
        ensures { result ≡ wrote_of written byte tx self }
    {
        let asked = asking(Some(Effect::Write(self.pointer, byte)), self, tx);
        match written {
            Err(number) => Edge {
                answer: Err(number),
                ..asked
            },
            Ok(quiet) => Edge {
                answer: Ok(true),
                state: self.acknowledging(written_next(quiet)),
                ..asked
            },
        }
    }

    // A byte is whole.
    #[tactic(auto, unfolding(crate::specs::Rising::whole_of))]
    fn whole(self, kind: Receive, byte: u8, outside: Outside) -> Edge
        ensures { result ≡ whole_of kind byte outside self }
    {
        match kind {
            Receive::Address => plain(self.addressed(byte), outside.tx),
            Receive::Control => {
                let pointed = State {
                    pointer: byte % 128,
                    ..self
                };
                plain(pointed.acknowledging(Following::Data), outside.tx)
            }
            Receive::Data => self.wrote(byte, outside.tx, outside.written),
        }
    }

    // A bit is sampled.
    #[tactic(auto, unfolding(crate::specs::Rising::sampled_of))]
    fn sampled(self, kind: Receive, sda: bool, outside: Outside) -> Edge
        ensures { result ≡ sampled_of kind sda outside self }
    {
        let shift = bus::shift_in(self.shift, sda);
        let bits = self.bits.wrapping_add(1);
        let last = bits == 8;
        if last {
            return self.abort().whole(kind, shift, outside);
        }
        plain(
            State {
                bits,
                shift,
                ..self
            },
            outside.tx,
        )
    }

    // A bit was read; after the last one the pointer goes on to the next register.
    #[tactic(auto, unfolding(crate::specs::Rising::counted_of))]
    fn counted(self, sampled: u8) -> State
        ensures { result ≡ counted_of sampled self }
    {
        let last = sampled == 7;
        if last {
            let pointer = self.pointer.wrapping_add(1) % 128;
            return State {
                phase: Phase::Read { sampled: 8 },
                pointer,
                ..self
            };
        }
        self.at(Phase::Read {
            sampled: sampled.wrapping_add(1),
        })
    }

    // A bit of the byte being sent is read.
    #[tactic(auto, unfolding(crate::specs::Rising::read_on_of))]
    fn read_on(self, sampled: u8, tx: Option<u8>) -> Edge
        ensures { result ≡ read_on_of sampled tx self }
    {
        let first = sampled == 0;
        if first {
            return asking(
                Some(Effect::Acknowledge(self.pointer)),
                self.counted(sampled),
                tx,
            );
        }
        let under_way = sampled < 8;
        if under_way {
            plain(self.counted(sampled), tx)
        } else {
            plain(self, tx)
        }
    }

    #[tactic(auto, unfolding(crate::specs::Rising::rising_of))]
    pub(crate) fn rising(self, sda: bool, outside: Outside) -> Edge
        ensures { result ≡ rising_of self.phase sda outside self }
    {
        let phase = self.phase;
        match phase {
            Phase::Idle => plain(self, outside.tx),
            Phase::Receive(kind) => self.sampled(kind, sda, outside),
            Phase::Acknowledge { following, edge: _ } => {
                plain(
                    self.at(Phase::Acknowledge { following, edge: 2 }),
                    outside.tx,
                )
            }
            Phase::Read { sampled } => self.read_on(sampled, outside.tx),
            Phase::MasterAcknowledge(_) => {
                plain(
                    self.at(Phase::MasterAcknowledge(Some(bus::is_acknowledge(sda)))),
                    outside.tx,
                )
            }
        }
    }
}
