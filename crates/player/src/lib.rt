// Plays traces over the peripheral (document 01, "The trace player"): for each line its answer line, its report or the signals after it.
#![tactic(auto)]

ghost use Rattle.std.specs.Prelude.{◌≡◌, length};
ghost use Rattle.answers.specs.declared.Output.TheVariants.{Answers, Reports, Waves};
ghost use Rattle.player.specs.Trace.{fresh_player, part_of, run_of, over, progress_of, summary_of};

use answers::{Host, Output, Seen};
use iic::Iic;
use lines::each::Lines;
use lines::ends::past;
use refusals::Refusal;
use window::Window;

// The lines played so far, and what they left.
#[derive(Clone, Copy)]
pub struct Player {
    pub lines: u64,
    pub seen: Seen,
    pub host: Host,
}

// How far a part of a trace was played: its bytes used, the bytes written, whether it ended for lack of room, and the player after it.
#[derive(Clone, Copy)]
pub struct Progress {
    pub used: usize,
    pub written: usize,
    pub ended: Result<(), Refusal>,
    pub player: Player,
}

// What a whole trace gives: bytes written, lines played, whether it ended for lack of room.
#[derive(Clone, Copy)]
pub struct Summary {
    pub written: usize,
    pub lines: u64,
    pub ended: Result<(), Refusal>,
}

impl Player {
    // Before the first line.
    #[tactic(auto, unfolding(crate::specs::Trace::fresh_player))]
    pub fn new() -> Player
        ensures { result ≡ fresh_player }
    {
        Player {
            lines: 0,
            seen: Seen {
                window: Window::empty(),
                began: None,
            },
            host: Host {
                last: None,
                state: Iic::new(),
            },
        }
    }

    // Plays the lines of a part of a trace while 80 bytes are free. Where the trace goes on, a last line without its newline isn't played.
    pub fn play_lines(self, output: Output, part: &[u8], ended: bool, out: &mut [u8]) -> Progress
        ensures { (result ≡ progress_of (length part.now) (part_of output self ended part.now (length out.old))) × (out.new ≡ over (part_of output self ended part.now (length out.old)) out.old) }
    {
        let mut host = self.host;
        let mut seen = self.seen;
        let mut lines = self.lines;
        let mut used = 0usize;
        let mut written = 0usize;
        // After 1,000,000 lines no byte more is looked at.
        let most = 1000000u64.saturating_sub(lines) as usize;
        for line in (Lines { rest: part, ended }).take(most) {
            if out.len() - written < 80 {
                return Progress {
                    used,
                    written,
                    ended: Err(Refusal::NoRoom),
                    player: Player { lines, seen, host },
                };
            }
            let answer = host.answer(line);
            lines += 1;
            let before = host.state.registers.status;
            host = answer.host;
            seen = seen.after(output, before, host);
            written += answer.write(output, seen, &mut out[written..], lines);
            used = past(used + line.len(), part.len());
        }
        Progress {
            used,
            written,
            ended: Ok(()),
            player: Player { lines, seen, host },
        }
    }
}

// Plays a whole trace.
#[tactic(auto, unfolding(crate::specs::Trace::run_of))]
pub fn play(output: Output, trace: &[u8], out: &mut [u8]) -> Summary
    ensures { (result ≡ summary_of (run_of output trace.now (length out.old))) × (out.new ≡ over (run_of output trace.now (length out.old)) out.old) }
{
    let done = Player::new().play_lines(output, trace, true, out);
    Summary {
        written: done.written,
        lines: done.player.lines,
        ended: done.ended,
    }
}

// The same for a Rust host: the bytes written. This export and the two below differ in the output alone: the C interface has a name for each.
#[unsafe(no_mangle)]
pub extern "C" fn play_trace(trace: &[u8], out: &mut [u8]) -> usize
    ensures { (result ≡ (summary_of (run_of Answers trace.now (length out.old))).written) × (out.new ≡ over (run_of Answers trace.now (length out.old)) out.old) }
{
    play(Output::Answers, trace, out).written
}

// The reports of a whole trace, in the same way.
#[unsafe(no_mangle)]
pub extern "C" fn busy_trace(trace: &[u8], out: &mut [u8]) -> usize
    ensures { (result ≡ (summary_of (run_of Reports trace.now (length out.old))).written) × (out.new ≡ over (run_of Reports trace.now (length out.old)) out.old) }
{
    play(Output::Reports, trace, out).written
}

// The signals of a whole trace, in the same way: what stands behind the header of a VCD file.
#[unsafe(no_mangle)]
pub extern "C" fn wave_trace(trace: &[u8], out: &mut [u8]) -> usize
    ensures { (result ≡ (summary_of (run_of Waves trace.now (length out.old))).written) × (out.new ≡ over (run_of Waves trace.now (length out.old)) out.old) }
{
    play(Output::Waves, trace, out).written
}
