// A wait for a number of edges of a tap, counted in edges and not in seconds.
ghost use Rattle.std.specs.Prelude.{◌≡◌, ◌+◌, false};
ghost use Rattle.clocks.specs.Clocks.{has_zero};
ghost use Rattle.clocks.specs.Wait.{started_at, kept, dated, wait_after, wait_deadline, wait_pause, paused_by, resumed_as, wait_resume, wait_validate, wait_select};
ghost use Rattle.clocks.specs.Tap.{same_tap};
ghost use Rattle.counts.specs.Counts.{fits};
ghost use Rattle.refusals.specs.Refusals.{and_then};

use super::Clocks;
use super::tap::Tap;
use counts::checked_add;
use refusals::Refusal;
use time::Time;

#[derive(Clone, Copy, Debug, PartialEq, Eq)]
pub enum WaitState {
    Running(u64),
    Paused(u64),
    Ready(Time),
}

// A number of edges of a tap to wait for: running to the edge of a number, paused with so many left, or over at a time.
#[derive(Clone, Copy, Debug, PartialEq, Eq)]
pub struct ClockWait {
    pub tap: Tap,
    pub state: WaitState,
}

// What ended a call, and the wait that is left: a refused `select` may leave another one than it found.
#[derive(Clone, Copy, Debug, PartialEq, Eq)]
pub struct Waited {
    pub ended: Result<(), Refusal>,
    pub wait: ClockWait,
}

// A time as a deadline: when a wait ends, none while it is paused or its tap is not available.
#[tactic(auto, unfolding(crate::specs::Wait::dated))]
pub fn dated(edge: Result<Time, Refusal>) -> Result<Option<Time>, Refusal>
    ensures { result ≡ dated edge }
{
    Ok(Some(edge?))
}

impl ClockWait {
    #[tactic(auto, unfolding(crate::specs::Wait::wait_after, crate::specs::Wait::started_for, crate::specs::Wait::started_at, crate::specs::Wait::started_by, crate::specs::Wait::wait_deadline))]
    pub fn after(now: Time, edges: u64, tap: Tap, clocks: Clocks) -> Result<ClockWait, Refusal>
        ensures { result ≡ wait_after now edges tap clocks }
    {
        if clocks.has_zero() {
            return Err(Refusal::ZeroFrequency);
        }
        if tap.divide == 0 {
            return Err(Refusal::ZeroDivider);
        }
        if edges == 0 {
            return Ok(ClockWait {
                tap,
                state: WaitState::Ready(now),
            });
        }
        ClockWait::started(clocks.counted(now, tap), edges, tap, clocks)
    }

    // The wait for so many edges after those counted; apart from `after`, which would clear room for one more copy of the clock set.
    #[tactic(auto, unfolding(crate::specs::Wait::started_at, crate::specs::Wait::started_by, crate::specs::Wait::wait_deadline))]
    fn started(
        count: Result<u64, Refusal>,
        edges: u64,
        tap: Tap,
        clocks: Clocks,
    ) -> Result<ClockWait, Refusal>
        requires { has_zero clocks ≡ false }
        ensures { result ≡ and_then count (λ m. and_then (fits (m + edges)) (started_at tap clocks)) }
    {
        let target = checked_add(count?, edges)?;
        let wait = ClockWait {
            tap,
            state: WaitState::Running(target),
        };
        wait.deadline(clocks)?;
        Ok(wait)
    }

    #[tactic(auto, unfolding(crate::specs::Wait::wait_deadline, crate::specs::Wait::edge_deadline, crate::specs::Wait::dated, crate::specs::Clocks::available_of, crate::specs::Clocks::tap_edge))]
    pub fn deadline(self, clocks: Clocks) -> Result<Option<Time>, Refusal>
        ensures { result ≡ wait_deadline self clocks }
    {
        if clocks.has_zero() {
            return Err(Refusal::ZeroFrequency);
        }
        match self.state {
            WaitState::Running(target) => {
                let tap = self.tap;
                let domain = clocks.source(tap.source);
                if domain.running & clocks.is_fed(tap.source, tap.divide) {
                    // A `?` here would copy the clock set once more, for every wait.
                    dated(clocks.edge_by(domain.clock, target, tap))
                } else {
                    Ok(None)
                }
            }
            WaitState::Paused(_) => Ok(None),
            WaitState::Ready(at) => Ok(Some(at)),
        }
    }

    // The wait, and what ended the call.
    fn kept(self, ended: Result<(), Refusal>) -> Waited
        ensures { result ≡ kept ended self }
    {
        Waited { ended, wait: self }
    }

    // Another wait, or this one where that is refused.
    #[tactic(auto, unfolding(crate::specs::Wait::resumed_as))]
    fn resumed_as(self, started: Result<ClockWait, Refusal>) -> Waited
        ensures { result ≡ resumed_as self started }
    {
        match started {
            Ok(wait) => wait.kept(Ok(())),
            Err(refusal) => self.kept(Err(refusal)),
        }
    }

    // The wait paused with the edges that are left of it, whether or not its time has passed.
    #[tactic(auto, unfolding(crate::specs::Wait::paused_by, crate::specs::Wait::left_at, crate::specs::Wait::resumed_as))]
    fn stopped(self, now: Time, clocks: Clocks) -> Result<ClockWait, Refusal>
        ensures { resumed_as self result ≡ paused_by self now clocks self.state }
    {
        let left = match self.state {
            WaitState::Running(target) => target
                .checked_sub(clocks.ticks(now, self.tap)?)
                .ok_or(Refusal::Reversed)?,
            WaitState::Paused(_) => return Ok(self),
            WaitState::Ready(_) => 0,
        };
        Ok(ClockWait {
            state: WaitState::Paused(left),
            ..self
        })
    }

    // The same, unless its time has passed.
    #[tactic(auto, unfolding(crate::specs::Wait::wait_pause, crate::specs::Wait::resumed_as, time::specs::Time::earlier))]
    fn paused(self, now: Time, clocks: Clocks) -> Result<ClockWait, Refusal>
        ensures { resumed_as self result ≡ wait_pause self now clocks }
    {
        match self.deadline(clocks)? {
            Some(at) => if at < now {
                Err(Refusal::Reversed)
            } else {
                self.stopped(now, clocks)
            },
            None => self.stopped(now, clocks),
        }
    }

    pub fn pause(self, now: Time, clocks: Clocks) -> Waited
        ensures { result ≡ wait_pause self now clocks }
    {
        self.resumed_as(self.paused(now, clocks))
    }

    #[tactic(auto, unfolding(crate::specs::Wait::wait_resume, crate::specs::Wait::resumed_as))]
    pub fn resume(self, now: Time, clocks: Clocks) -> Waited
        ensures { result ≡ wait_resume self now clocks }
    {
        if clocks.has_zero() {
            return self.kept(Err(Refusal::ZeroFrequency));
        }
        match self.state {
            WaitState::Paused(remaining) => self.resumed_as(ClockWait::after(
                now, remaining, self.tap, clocks,
            )),
            WaitState::Running(_) | WaitState::Ready(_) => self.kept(Ok(())),
        }
    }

    // `ZeroTap` where the wait's tap has the divider 0.
    #[tactic(auto, unfolding(crate::specs::Wait::wait_validate))]
    pub fn validate(self) -> Result<(), Refusal>
        ensures { result ≡ wait_validate self }
    {
        self.tap.validate()
    }

    pub fn uses(self, tap: Tap) -> bool
        ensures { result ≡ same_tap self.tap tap }
    {
        self.tap.same(tap)
    }

    #[tactic(auto, unfolding(crate::specs::Wait::wait_select, crate::specs::Wait::selected_by, crate::specs::Wait::moved_to))]
    pub fn select(self, now: Time, tap: Tap, clocks: Clocks) -> Waited
        ensures { result ≡ wait_select self now tap clocks }
    {
        if clocks.has_zero() {
            return self.kept(Err(Refusal::ZeroFrequency));
        }
        if tap.divide == 0 {
            return self.kept(Err(Refusal::ZeroDivider));
        }
        if self.uses(tap) {
            return self.kept(Ok(()));
        }
        let paused = self.pause(now, clocks);
        if paused.ended.is_err() {
            return paused;
        }
        let next = ClockWait {
            tap,
            state: paused.wait.state,
        };
        if matches!(self.state, WaitState::Paused(_)) {
            return next.kept(Ok(()));
        }
        next.resume(now, clocks)
    }
}
