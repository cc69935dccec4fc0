// Several peripherals on one pair of wires (document 02, (g)).
#![tactic(auto)]

ghost use Rattle.std.specs.Prelude.{◌≡◌, length};
ghost use Rattle.answers.specs.Calls.{trace_clocks};
ghost use Rattle.bench.specs.Bench.{bench_of, has_ended, over, ran, start, summary_by, summary_of};
ghost use Rattle.bench.specs.Moments.{fresh_bench};

pub mod cursor;
pub mod moments;
pub mod notes;
mod peripherals;
pub mod steps;
pub mod turns;

use answers::{Line, trace_clocks};
use bus::Levels;
use clocks::Clocks;
use cursor::Cursor;
use iic::Iic;
use notes::write;
use peripherals::Peripherals;
use refusals::Refusal;
use steps::Found;
use time::Time;

// What the bench does next: goes to the earliest moment that isn't before the present one; visits, in that moment, the units from that number on;
// plays the script lines of that moment; reports those levels to the units from that number on; or nothing, since it has ended, by a refusal or not.
// An enum that each step matches on, and not a closure: the theorems of `together` on runs (`EqualOnBench`, `ExtraVisits`) go by what it holds.
#[derive(Clone, Copy)]
pub enum Doing {
    Looks(Option<Time>),
    Visits(Time, u8),
    Plays(Time),
    Reports(Time, Levels, u8),
    Ended(Result<(), Refusal>),
}

// Where a bench stands: what it does next, the time of the last script line that wasn't refused 4 or 5, the visits so far, and of each unit whether
// its visit in the present moment was refused.
#[derive(Clone, Copy)]
pub struct Place {
    pub doing: Doing,
    pub last: Option<Time>,
    pub visits: u64,
    pub refused: [bool; 4],
}

// The bench: the states of its units, of which those below its number of peripherals are on the wires, and where it stands.
// The states and the marks of `Place` aren't one array: a run hands back the states as they lie here, and a new moment clears all marks at once.
#[derive(Clone, Copy)]
pub struct Bench {
    pub states: [Iic; 4],
    pub place: Place,
}

// What a step does to the unit that it calls: its state and the place after it, what is written for it, and whether a script line is answered by it.
#[derive(Clone, Copy)]
pub struct Turn {
    pub state: Iic,
    pub place: Place,
    pub told: Option<Line>,
    pub answered: bool,
}

// The same of the whole bench.
// Not one generic type with `Turn`: a step holds a `Bench`, which the theorems of `together` name, and a turn holds one state of it beside the place.
#[derive(Clone, Copy)]
pub struct Step {
    pub bench: Bench,
    pub told: Option<Line>,
    pub answered: bool,
}

// How a bench ended: bytes written, script lines answered, whether a refusal ended it, and the states, at the default those of peripherals that it lacks.
#[derive(Clone, Copy)]
pub struct Summary {
    pub written: usize,
    pub lines: u64,
    pub ended: Result<(), Refusal>,
    pub states: [Iic; 4],
}

impl Bench {
    // Each unit begins at its default.
    #[tactic(auto, unfolding(crate::specs::Moments::fresh_bench))]
    pub fn new() -> Bench
        ensures { result ≡ fresh_bench }
    {
        Bench {
            states: [Iic::new(); 4],
            place: Place {
                doing: Doing::Looks(None),
                last: None,
                visits: 0,
                refused: [false; 4],
            },
        }
    }

    fn has_ended(self) -> bool
        ensures { result ≡ has_ended self.place.doing }
    {
        matches!(self.place.doing, Doing::Ended(_))
    }

    // How it ended, after so many bytes and script lines.
    fn summarize(self, written: usize, lines: u64) -> Summary
        ensures { result ≡ summary_by self written lines }
    {
        let states = self.states;
        Summary {
            written,
            lines,
            ended: self.place.doing.end(),
            states,
        }
    }
}

// Steps until the bench has ended.
fn run(all: Peripherals, script: &[u8], out: &mut [u8]) -> Summary
    ensures { (result ≡ summary_of (ran all.clocks all.count (length out.old) (start script.now))) × (out.new ≡ over (ran all.clocks all.count (length out.old) (start script.now)) out.old) }
{
    let mut bench = Bench::new();
    let mut cursor = Cursor::new(script);
    let mut written = 0usize;
    while !bench.has_ended() {
        let found = Found {
            free: out.len() - written,
            next: cursor.next,
            number: cursor.lines + 1,
        };
        let step = bench.step(all, found);
        bench = step.bench;
        written += write(step.told, &mut out[written..]);
        cursor = cursor.after(step.answered, script);
    }
    bench.summarize(written, cursor.lines)
}

// Plays a script on so many peripherals.
pub fn play(count: usize, clocks: Clocks, script: &[u8], out: &mut [u8]) -> Summary
    ensures { (result ≡ summary_of (bench_of clocks count script.now (length out.old))) × (out.new ≡ over (bench_of clocks count script.now (length out.old)) out.old) }
{
    let Some(peripherals) = Peripherals::new(count, clocks) else {
        return Bench::new()
            .goes(Doing::Ended(Err(Refusal::Peripherals)))
            .bench
            .summarize(0, 0);
    };
    run(peripherals, script, out)
}

// The same for a Rust host, over the trace player's clock set: the bytes written.
#[unsafe(no_mangle)]
pub extern "C" fn bench_script(count: usize, script: &[u8], out: &mut [u8]) -> usize
    ensures { (result ≡ length (bench_of trace_clocks count script.now (length out.old)).bytes) × (out.new ≡ over (bench_of trace_clocks count script.now (length out.old)) out.old) }
{
    play(count, trace_clocks(), script, out).written
}
