// Sums and products of 64 bits, refused as `Overflow` where they pass them, and differences that stop at 0.
#![tactic(auto)]

ghost use Rattle.std.specs.Prelude.{◌≡◌, ◌+◌, ◌-◌, ◌*◌};
ghost use Rattle.counts.specs.Counts.{fits};

use refusals::Refusal;

#[tactic(auto, unfolding(crate::specs::Counts::fits))]
pub fn checked_add(a: u64, b: u64) -> Result<u64, Refusal>
    ensures { result ≡ fits (a + b) }
{
    a.checked_add(b).ok_or(Refusal::Overflow)
}

#[tactic(auto, unfolding(crate::specs::Counts::fits))]
pub fn checked_mul(a: u64, b: u64) -> Result<u64, Refusal>
    ensures { result ≡ fits (a * b) }
{
    a.checked_mul(b).ok_or(Refusal::Overflow)
}

pub fn saturating_sub(a: u64, b: u64) -> u64
    ensures { result ≡ a - b }
{
    a.saturating_sub(b)
}
