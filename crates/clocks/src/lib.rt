// The clock set of the chip: its sources, the prescalers behind them, the counts and edges of their outputs, and waits for edges.
// The names are those of mcu/clocks.rs.
#![tactic(auto)]

ghost use Rattle.std.specs.Prelude.{◌≡◌, false};
ghost use Rattle.clocks.specs.Clocks.{default_frequencies, domain_at, clock_set, new_clocks, has_zero, source_of, routed_ticks, tap_ticks, routed_edge, edge_by, tap_edge, tap_after, fed_by, available_of, routed_high, tap_high};
ghost use Rattle.clocks.specs.Half.{half_ticks, half_edge};

pub mod later;
pub mod moves;
pub mod system;
pub mod tap;
pub mod wait;

use counts::{checked_add, checked_mul};
use domain::Domain;
use prescaler::{PrescalerS, PrescalerW};
use refusals::Refusal;
use tap::{Route, Source, Tap, is_within};
use time::{Clock, Time};

#[derive(Clone, Copy, Debug, PartialEq, Eq)]
pub struct Frequencies {
    pub main_hz: u64,
    pub watch_hz: u64,
    pub on_chip_hz: u64,
}

// The domains that a tap can name, and the two prescalers.
#[derive(Clone, Copy, Debug, PartialEq, Eq)]
pub struct Clocks {
    pub system: Domain,
    pub cpu: Domain,
    pub watch: Domain,
    pub on_chip: Domain,
    pub oscillator: Domain,
    pub subclock: Domain,
    pub prescaler_s: PrescalerS,
    pub prescaler_w: PrescalerW,
}

// A clock set, and what ended its making or its move: `ZeroFrequency` where it holds a zero, for a move also `Overflow`. The set is there where
// that was refused too.
#[derive(Clone, Copy, Debug, PartialEq, Eq)]
pub struct NewClocks {
    pub ended: Result<(), Refusal>,
    pub clocks: Clocks,
}

impl Default for Frequencies {
    ghost is_default = { λ f. f ≡ default_frequencies };

    fn default() -> Frequencies {
        Frequencies {
            main_hz: 3_686_400,
            watch_hz: 32_768,
            on_chip_hz: 1_310_720,
        }
    }
}

// A domain that runs from now on at hz / divide Hz.
fn domain_at(now: Time, hz: u64, divide: u64) -> Domain
    ensures { result ≡ domain_at now hz divide }
{
    let clock = Clock {
        start: now,
        numerator: hz,
        denominator: divide,
        ordinal: 0,
        fraction: 0,
    };
    Domain {
        clock,
        running: true,
        held_at: now,
    }
}

#[tactic(auto, unfolding(crate::specs::Clocks::clock_set))]
fn clock_set(now: Time, frequencies: Frequencies) -> Clocks
    ensures { result ≡ clock_set now frequencies }
{
    let main = domain_at(now, frequencies.main_hz, 1);
    let watch = domain_at(now, frequencies.watch_hz, 1);
    let on_chip = domain_at(now, frequencies.on_chip_hz, 1);
    let subclock = domain_at(now, frequencies.watch_hz, 8);
    let prescaler_s = PrescalerS::new();
    let prescaler_w = PrescalerW::new();
    Clocks {
        system: main,
        cpu: main,
        watch,
        on_chip,
        oscillator: main,
        subclock,
        prescaler_s,
        prescaler_w,
    }
}

impl Clocks {
    #[tactic(auto, unfolding(crate::specs::Clocks::new_clocks))]
    pub fn new(now: Time, frequencies: Frequencies) -> NewClocks
        ensures { result ≡ new_clocks now frequencies }
    {
        let clocks = clock_set(now, frequencies);
        let ended = if clocks.has_zero() {
            Err(Refusal::ZeroFrequency)
        } else {
            Ok(())
        };
        NewClocks { ended, clocks }
    }

    // Whether some clock of the set holds a zero frequency or denominator, or a fraction that isn't below its numerator.
    #[tactic(auto, unfolding(crate::specs::Clocks::has_zero))]
    pub fn has_zero(self) -> bool
        ensures { result ≡ has_zero self }
    {
        let system = self.system.has_zero();
        let cpu = self.cpu.has_zero();
        let watch = self.watch.has_zero();
        let on_chip = self.on_chip.has_zero();
        let oscillator = self.oscillator.has_zero();
        let subclock = self.subclock.has_zero();
        system | cpu | watch | on_chip | oscillator | subclock
    }

    #[tactic(auto, unfolding(crate::specs::Clocks::source_of))]
    pub(crate) fn source(self, source: Source) -> Domain
        ensures { result ≡ source_of self source }
    {
        match source {
            Source::System => self.system,
            Source::Cpu => self.cpu,
            Source::Watch => self.watch,
            Source::OnChip => self.on_chip,
            Source::Oscillator => self.oscillator,
            Source::Subclock => self.subclock,
        }
    }

    // The edges of a tap, where so many of its source were counted.
    #[tactic(auto, unfolding(crate::specs::Clocks::routed_ticks))]
    fn routed_ticks(self, divide: u32, raw: u64, route: Route) -> Result<u64, Refusal>
        ensures { result ≡ routed_ticks self divide raw route }
    {
        match route {
            Route::ThroughS(s) => self.prescaler_s.ticks(raw, s),
            Route::ThroughW(s) => self.prescaler_w.ticks(raw / 4, s),
            Route::Direct => if divide == 0 {
                Err(Refusal::ZeroDivider)
            } else {
                Ok(raw / (divide as u64))
            },
        }
    }

    #[tactic(auto, unfolding(crate::specs::Clocks::tap_ticks))]
    pub fn ticks(self, now: Time, tap: Tap) -> Result<u64, Refusal>
        ensures { result ≡ tap_ticks self now tap }
    {
        if self.has_zero() {
            return Err(Refusal::ZeroFrequency);
        }
        self.counted(now, tap)
    }

    // The edges of a tap, in a set without a zero.
    #[tactic(auto, unfolding(crate::specs::Clocks::tap_ticks))]
    pub(crate) fn counted(self, now: Time, tap: Tap) -> Result<u64, Refusal>
        requires { has_zero self ≡ false }
        ensures { result ≡ tap_ticks self now tap }
    {
        let raw = self.source(tap.source).ticks(now)?;
        self.routed_ticks(tap.divide, raw, tap.route())
    }

    // The source's edge that is the tap's edge of that number.
    #[tactic(auto, unfolding(crate::specs::Clocks::routed_edge))]
    fn routed_edge(self, divide: u32, tick: u64, route: Route) -> Result<u64, Refusal>
        ensures { result ≡ routed_edge self divide tick route }
    {
        match route {
            Route::ThroughS(s) => self.prescaler_s.parent_edge(tick, s),
            Route::ThroughW(s) => checked_mul(self.prescaler_w.parent_edge(tick, s)?, 4),
            Route::Direct => checked_mul(tick, divide as u64),
        }
    }

    #[tactic(auto, unfolding(crate::specs::Clocks::tap_edge))]
    pub fn edge(self, tick: u64, tap: Tap) -> Result<Time, Refusal>
        ensures { result ≡ tap_edge self tick tap }
    {
        if self.has_zero() {
            return Err(Refusal::ZeroFrequency);
        }
        self.edge_by(self.source(tap.source).clock, tick, tap)
    }

    // The time of a tap's edge, by its source's clock.
    pub(crate) fn edge_by(self, clock: Clock, tick: u64, tap: Tap) -> Result<Time, Refusal>
        ensures { result ≡ edge_by self clock tick tap }
    {
        clock.after(self.routed_edge(tap.divide, tick, tap.route())?)
    }

    #[tactic(auto, unfolding(crate::specs::Clocks::tap_after))]
    pub fn after(self, now: Time, edges: u64, tap: Tap) -> Result<Time, Refusal>
        ensures { result ≡ tap_after self now edges tap }
    {
        let count = self.ticks(now, tap)?;
        self.edge(checked_add(count, edges)?, tap)
    }

    // Whether the prescaler that a divider needs is running.
    #[tactic(auto, unfolding(crate::specs::Clocks::fed_by))]
    pub(crate) fn is_fed(self, source: Source, divide: u32) -> bool
        ensures { result ≡ fed_by self source divide }
    {
        let by_s = is_within(2, 8192, divide);
        let by_w = is_within(8, 1024, divide);
        match source {
            Source::System => !by_s | self.prescaler_s.divider.running,
            Source::Watch => !by_w | self.prescaler_w.divider.running,
            Source::Cpu | Source::OnChip | Source::Oscillator | Source::Subclock => true,
        }
    }

    #[tactic(auto, unfolding(crate::specs::Clocks::available_of))]
    pub fn available(self, tap: Tap) -> Result<bool, Refusal>
        ensures { result ≡ available_of self tap }
    {
        if self.has_zero() {
            return Err(Refusal::ZeroFrequency);
        }
        let fed = self.is_fed(tap.source, tap.divide);
        Ok(self.source(tap.source).running & fed)
    }

    // The level of a tap, where so many edges of its source were counted.
    #[tactic(auto, unfolding(crate::specs::Clocks::routed_high))]
    fn routed_high(self, tap: Tap, now: Time, raw: u64, route: Route) -> Result<bool, Refusal>
        ensures { result ≡ routed_high self tap now raw route }
    {
        match route {
            Route::ThroughS(s) => self.prescaler_s.high(raw, s),
            Route::ThroughW(s) => self.prescaler_w.high(raw / 4, s),
            Route::Direct => if tap.divide < 2 {
                self.source(tap.source).level_high(now, raw)
            } else {
                Ok(raw % (tap.divide as u64) < ((tap.divide / 2) as u64))
            },
        }
    }

    #[tactic(auto, unfolding(crate::specs::Clocks::tap_high))]
    pub fn high(self, now: Time, tap: Tap) -> Result<bool, Refusal>
        ensures { result ≡ tap_high self now tap }
    {
        if self.has_zero() {
            return Err(Refusal::ZeroFrequency);
        }
        let raw = self.source(tap.source).ticks(now)?;
        self.routed_high(tap, now, raw, tap.route())
    }

    #[tactic(auto, unfolding(crate::specs::Half::half_ticks))]
    pub fn system_half_ticks(self, now: Time) -> Result<u64, Refusal>
        ensures { result ≡ half_ticks self now }
    {
        if self.has_zero() {
            return Err(Refusal::ZeroFrequency);
        }
        self.system.half_ticks(now)
    }

    #[tactic(auto, unfolding(crate::specs::Half::half_edge))]
    pub fn system_half_edge(self, tick: u64) -> Result<Time, Refusal>
        ensures { result ≡ half_edge self tick }
    {
        if self.has_zero() {
            return Err(Refusal::ZeroFrequency);
        }
        self.system.half_edge(tick)
    }
}
