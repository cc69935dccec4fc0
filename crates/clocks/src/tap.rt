// The outputs of the clock set that can be counted: a source and a divider.
ghost use Rattle.std.specs.Prelude.{◌≡◌, ◌-◌};
ghost use Rattle.clocks.specs.declared.tap.Source.TheVariants.{System, Cpu, Watch, OnChip, Oscillator, Subclock};
ghost use Rattle.clocks.specs.Tap.{tap_of, same_tap, tap_validate, stage_of, within, route_s, route_w, route_of};

use refusals::Refusal;

#[derive(Clone, Copy, Debug, PartialEq, Eq)]
pub enum Source {
    System,
    Cpu,
    Watch,
    OnChip,
    Oscillator,
    Subclock,
}

#[derive(Clone, Copy, Debug, PartialEq, Eq)]
pub struct Tap {
    pub source: Source,
    pub divide: u32,
}

// Where the edges of a tap come from: a stage of prescaler S or W, or the source itself.
#[derive(Clone, Copy, Debug, PartialEq, Eq)]
pub enum Route {
    ThroughS(u32),
    ThroughW(u32),
    Direct,
}

// The exponent of a power of two. That has one bit, with as many zeros below it as its exponent says.
fn stage_of(divide: u32) -> Option<u32>
    ensures { result ≡ stage_of divide }
{
    if divide.count_ones() == 1 {
        return Some(divide.trailing_zeros());
    }
    None
}

// Whether a number is one of `a` to `b`.
pub(crate) fn is_within(a: u32, b: u32, n: u32) -> bool
    ensures { result ≡ within a b n }
{
    (a <= n) & (n <= b)
}

#[tactic(auto, unfolding(crate::specs::Tap::route_s))]
fn route_s(stage: Option<u32>) -> Route
    ensures { result ≡ route_s stage }
{
    let Some(s) = stage else {
        return Route::Direct;
    };
    if is_within(1, 13, s) {
        Route::ThroughS(s)
    } else {
        Route::Direct
    }
}

#[tactic(auto, unfolding(crate::specs::Tap::route_w))]
fn route_w(stage: Option<u32>) -> Route
    ensures { result ≡ route_w stage }
{
    let Some(s) = stage else {
        return Route::Direct;
    };
    if is_within(3, 10, s) {
        Route::ThroughW(s - 2)
    } else {
        Route::Direct
    }
}

impl Tap {
    pub fn cpu() -> Tap
        ensures { result ≡ tap_of Cpu 1 }
    {
        Tap {
            source: Source::Cpu,
            divide: 1,
        }
    }

    pub fn system(divide: u32) -> Tap
        ensures { result ≡ tap_of System divide }
    {
        Tap {
            source: Source::System,
            divide,
        }
    }

    pub fn watch(divide: u32) -> Tap
        ensures { result ≡ tap_of Watch divide }
    {
        Tap {
            source: Source::Watch,
            divide,
        }
    }

    pub fn on_chip(divide: u32) -> Tap
        ensures { result ≡ tap_of OnChip divide }
    {
        Tap {
            source: Source::OnChip,
            divide,
        }
    }

    pub fn oscillator() -> Tap
        ensures { result ≡ tap_of Oscillator 1 }
    {
        Tap {
            source: Source::Oscillator,
            divide: 1,
        }
    }

    pub fn subclock() -> Tap
        ensures { result ≡ tap_of Subclock 1 }
    {
        Tap {
            source: Source::Subclock,
            divide: 1,
        }
    }

    // `ZeroTap` for the divider 0.
    #[tactic(auto, unfolding(crate::specs::Tap::tap_validate))]
    pub fn validate(self) -> Result<(), Refusal>
        ensures { result ≡ tap_validate self }
    {
        if self.divide == 0 {
            return Err(Refusal::ZeroTap);
        }
        Ok(())
    }

    // `==`, kept as a method since its contract says it in `same_tap`, which the waits' definitions cite.
    #[tactic(auto, unfolding(crate::specs::Tap::same_tap))]
    pub fn same(self, other: Tap) -> bool
        ensures { result ≡ same_tap self other }
    {
        self == other
    }

    #[tactic(auto, unfolding(crate::specs::Tap::route_of))]
    pub fn route(self) -> Route
        ensures { result ≡ route_of self }
    {
        match self.source {
            Source::System => route_s(stage_of(self.divide)),
            Source::Watch => route_w(stage_of(self.divide)),
            Source::Cpu | Source::OnChip | Source::Oscillator | Source::Subclock => Route::Direct,
        }
    }
}
