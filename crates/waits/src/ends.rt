// How waits pause, resume and end.
ghost use Rattle.std.specs.Prelude.{◌≡◌};
ghost use Rattle.waits.specs.Ends.{is_on_system, system_end, turn_half, turn_wait, wait_end, half_end, due_of, acts, sooner, tap_refusal, short_half};

use super::HalfWait;
use clocks::Clocks;
use clocks::wait::ClockWait;
use domain::Domain;
use refusals::Refusal;
use time::Time;

pub fn turn_half(gate: bool, now: Time, system: Domain, w: HalfWait) -> Result<HalfWait, Refusal>
    ensures { result ≡ turn_half gate now system w }
{
    if gate {
        w.resume(now, system)
    } else {
        w.pause(now, system)
    }
}

// The same of a wait on any tap: one function for both takes a trait of the two, with its laws, which is longer.
pub fn turn_wait(gate: bool, now: Time, clocks: Clocks, w: ClockWait) -> Result<ClockWait, Refusal>
    ensures { result ≡ turn_wait gate now clocks w }
{
    let turned = if gate {
        w.resume(now, clocks)
    } else {
        w.pause(now, clocks)
    };
    turned.ended?;
    Ok(turned.wait)
}

// The earlier of two times, refused at the first that is refused.
#[tactic(auto, unfolding(crate::specs::Ends::sooner, time::specs::Time::earlier))]
pub fn sooner(
    a: Result<Option<Time>, Refusal>,
    b: Result<Option<Time>, Refusal>,
) -> Result<Option<Time>, Refusal>
    ensures { result ≡ sooner a b }
{
    let Some(first) = a? else {
        return b;
    };
    match b? {
        Some(other) => Ok(Some(first.min(other))),
        None => Ok(Some(first)),
    }
}

// Whether a time is now.
#[tactic(auto, unfolding(crate::specs::Ends::due_of, time::specs::Time::same_time))]
pub fn due(end: Result<Option<Time>, Refusal>, now: Time) -> Result<bool, Refusal>
    ensures { result ≡ due_of end now }
{
    Ok(end?.is_some_and(|at| at == now))
}

// Now, or refused: the visit acts on it.
pub fn acts(due: Result<bool, Refusal>) -> bool
    ensures { result ≡ acts due }
{
    due.unwrap_or(true)
}

#[tactic(auto, unfolding(crate::specs::Ends::wait_end))]
pub fn wait_end(wait: Option<ClockWait>, clocks: Clocks) -> Result<Option<Time>, Refusal>
    ensures { result ≡ wait_end wait clocks }
{
    wait.map_or(Ok(None), |w| w.deadline(clocks))
}

// Whether there is none, or it is on the tap system/1.
pub fn is_on_system(wait: Option<ClockWait>) -> bool
    ensures { result ≡ is_on_system wait }
{
    wait.is_none_or(|w| w.on_system())
}

// The end of a wait on the tap system/1.
#[tactic(auto, unfolding(crate::specs::Ends::system_end))]
pub fn system_end(wait: Option<ClockWait>, system: Domain) -> Result<Option<Time>, Refusal>
    ensures { result ≡ system_end wait system }
{
    wait.map_or(Ok(None), |w| w.system_deadline(system))
}

// `ZeroTap` where the wait's tap has the divider 0.
pub fn tap_refusal(wait: Option<ClockWait>) -> Result<(), Refusal>
    ensures { result ≡ tap_refusal wait }
{
    wait.map_or(Ok(()), |w| w.validate())
}

#[tactic(auto, unfolding(crate::specs::Ends::half_end))]
pub fn half_end(wait: Option<HalfWait>, system: Domain) -> Result<Option<Time>, Refusal>
    ensures { result ≡ half_end wait system }
{
    wait.map_or(Ok(None), |w| w.deadline(system))
}

// 1024 more still fits 64 bits.
pub fn is_short(wait: Option<HalfWait>) -> bool
    ensures { result ≡ short_half wait }
{
    wait.is_none_or(|w| w.count < 0xffff_ffff_ffff_fc00)
}
