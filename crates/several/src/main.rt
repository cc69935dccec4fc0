// Plays the script on standard input on so many peripherals as the argument says, over the trace player's clock set, and writes the answer lines to
// standard output; or says on standard error, in one line, why it ended before the script did, or why it can't.
#![tactic(auto)]

ghost use Rattle.std.specs.Prelude.{◌≡◌, length};

use answers::trace_clocks;
use commands::{exit_code, is_given, read_full};
use refusals::Refusal;
use std::io;
use std::io::Read;
use std::process::ExitCode;
use std::rt::Env;

const NAME: &str = "bench";

// Why it ended, where it is refused.
fn tell(rt: &impl Eprint, ended: Result<(), Refusal>, lines: u64) {
    match ended {
        Err(Refusal::NoRoom) => {
            let _ = eprintln!(rt;
                "bench: 6, the answer lines are more than 262144 bytes: script lines answered: {lines}"
            );
        }
        Err(Refusal::Peripherals) => {
            let _ = eprintln!(rt; "{NAME}: 15, a bench has 1 to 4 peripherals");
        }
        Err(Refusal::Visits) => {
            let _ = eprintln!(rt;
                "bench: 16, there would be more than 65536 visits: script lines answered: {lines}"
            );
        }
        _ => {}
    }
}

// Room for the script, or for the answer lines.
fn room() -> [u8; 262144]
    ensures { 262144 ≡ length result }
{
    [0; 262144]
}

fn play(rt: &(impl Print + Eprint), count: usize, script: &[u8]) -> io::Result<()> {
    let mut answers = room();
    let done = bench::play(count, trace_clocks(), script, &mut answers);
    rt.write_all(&answers[..done.written])?;
    tell(rt, done.ended, done.lines);
    Ok(())
}

// Plays what standard input has, where there is room for all of it.
fn play_input(rt: &(impl Input + Print + Eprint), count: usize) -> io::Result<()> {
    let mut reader = rt.reader();
    let mut script = room();
    let used = read_full(&mut reader, &mut script);
    let mut rest = [0u8; 4096];
    let _ = match reader.read(&mut rest) {
        Err(_) => eprintln!(rt; "{NAME}: standard input can't be read"),
        Ok(0) => return play(rt, count, &script[..used]),
        Ok(_) => eprintln!(rt; "{NAME}: the script is longer than 262144 bytes"),
    };
    Ok(())
}

fn main(rt: HostRuntime) -> ExitCode {
    let mut word = [0u8; 4096];
    let played = match (rt.arg(1, &mut word), lines::reading::digit(word[0], 10)) {
        (Ok(1), Some(count)) if !is_given(rt.arg(2, &mut [0; 1])) => {
            play_input(&rt, count as usize)
        }
        _ => {
            let _ = eprintln!(rt; "{NAME}: the number of peripherals, a decimal digit, is wanted");
            Ok(())
        }
    };
    exit_code(&rt, NAME, played)
}
