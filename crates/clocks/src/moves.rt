// A clock set whose system clock's start is moved up.
ghost use Rattle.std.specs.Prelude.{◌≡◌};
ghost use Rattle.clocks.specs.Moves.{with_system, move_system};

use super::{Clocks, NewClocks};
use domain::Domain;
use refusals::Refusal;
use time::Clock;

impl Clocks {
    // The set with another clock in its system domain, which runs or not as before.
    fn with_system(self, clock: Clock) -> Clocks
        ensures { result ≡ with_system clock self }
    {
        Clocks {
            system: Domain {
                clock,
                ..self.system
            },
            ..self
        }
    }

    // The set with the start of its system clock moved up by so many edges. A refused move, `ZeroFrequency` for a zero in the set and else
    // `Overflow`, gives the set as it was.
    #[tactic(auto, unfolding(crate::specs::Moves::move_system))]
    pub fn advance_system(self, edges: u64) -> NewClocks
        ensures { result ≡ move_system edges self }
    {
        if self.has_zero() {
            return NewClocks {
                ended: Err(Refusal::ZeroFrequency),
                clocks: self,
            };
        }
        match self.system.clock.advance(edges) {
            Ok(clock) => NewClocks {
                ended: Ok(()),
                clocks: self.with_system(clock),
            },
            Err(refusal) => NewClocks {
                ended: Err(refusal),
                clocks: self,
            },
        }
    }
}
