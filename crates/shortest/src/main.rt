// Prints the first line and the length of the shortest run of lines, in the trace on standard input, whose last line draws the refusal number that
// is the argument, of at most 256 lines, or 32 with `--leaflet`; or says on standard error, in one line, why there is none.
#![tactic(auto)]

ghost use Rattle.std.specs.Prelude.{◌≤◌, IfOk, length};

use commands::{exit_code, is_given};
use lines::reading::digit;
use search::Unfound;
use std::io;
use std::io::Read;
use std::process::ExitCode;
use std::rt::Env;

const NAME: &str = "shortest";

// How many bytes are held of a trace, and how many of them are its last line's.
#[derive(Clone, Copy)]
struct Held {
    used: usize,
    line: usize,
}

// A decimal number up to 255.
fn number_of(text: &[u8]) -> Option<u8> {
    if text.is_empty() {
        return None;
    }
    let mut n = 0u8;
    for &byte in text {
        n = n.checked_mul(10)?.checked_add(digit(byte, 10)?)?;
    }
    Some(n)
}

// 1 for a byte that is held, a newline or one of the first 65 of its line; else 0.
fn kept(line: usize, byte: u8) -> usize
    ensures { result ≤ 1 }
{
    let held = (byte == b'\n') | (line < 65);
    if held { 1 } else { 0 }
}

// How many bytes of its line are held after one more.
fn line_after(line: usize, byte: u8) -> usize
    ensures { result ≤ 65 }
{
    if byte == b'\n' {
        0
    } else if line < 65 {
        line + 1
    } else {
        65
    }
}

// Further bytes of a trace, as far as there is room. Of a line the first 65 are held, since more make it no more malformed (`cut_is_same` in
// crates/search).
fn hold(trace: &mut [u8], held: Held, part: &[u8]) -> Held
    requires { held.used ≤ length trace.old }
    ensures { result.used ≤ length trace.old }
{
    let Held { mut used, mut line } = held;
    for &byte in part {
        if trace.len() <= used {
            break;
        }
        trace[used] = byte;
        used += kept(line, byte);
        line = line_after(line, byte);
    }
    Held { used, line }
}

// The bytes held of a trace that is read until it ends or the room does.
fn read_trace<'a>(reader: &mut impl Read, room: &'a mut [u8]) -> io::Result<&'a [u8]>
    ensures { IfOk result (λ trace. length trace.now ≤ length room.old) }
{
    let mut part = [0u8; 4096];
    let mut held = Held { used: 0, line: 0 };
    for _ in 0..u64::MAX {
        let n = reader.read(&mut part)?;
        if n == 0 {
            break;
        }
        held = hold(room, held, &part[..n]);
        if room.len() <= held.used {
            break;
        }
    }
    Ok(&room[..held.used])
}

// Prints the run, or says why there is none.
fn answer(rt: &(impl Print + Eprint), trace: &[u8], number: u8, limit: u16) -> io::Result<()> {
    match search::shortest(trace, number, limit).found {
        Ok(run) => return println!(rt; "{}\t{}", run.first, run.length),
        Err(Unfound::LongTrace) => {
            let _ = eprintln!(rt; "{NAME}: 17, the trace has more lines than {limit}");
        }
        Err(Unfound::NotDrawn) => {
            let _ = eprintln!(rt; "{NAME}: 18, no run of the trace's lines draws {number}");
        }
    }
    Ok(())
}

// There is room for 992 lines, of at most 66 bytes each.
fn search_for(rt: &(impl Input + Print + Eprint), number: u8, limit: u16) -> io::Result<()> {
    let mut reader = rt.reader();
    let mut room = [0u8; 65536];
    let Ok(trace) = read_trace(&mut reader, &mut room) else {
        let _ = eprintln!(rt; "{NAME}: standard input can't be read");
        return Ok(());
    };
    answer(rt, trace, number, limit)
}

// The search with that limit, for the number that is the argument at that place and the last.
fn search_by(rt: &(impl Env + Input + Print + Eprint), at: usize, limit: u16) -> io::Result<()>
    requires { at ≤ 2 }
{
    let mut word = [0u8; 4096];
    let n = rt.arg(at, &mut word).unwrap_or(0);
    let asked = number_of(&word[..n]);
    if !is_given(rt.arg(at, &mut [0; 1])) | is_given(rt.arg(at + 1, &mut [0; 1])) {
        let _ = eprintln!(rt; "{NAME}: [--leaflet] NUMBER is wanted");
        return Ok(());
    }
    let Some(number) = asked else {
        let _ = eprintln!(rt; "{NAME}: NUMBER is a decimal number from 0 to 255");
        return Ok(());
    };
    search_for(rt, number, limit)
}

fn main(rt: HostRuntime) -> ExitCode {
    let mut word = [0u8; 4096];
    let n = rt.arg(1, &mut word).unwrap_or(0);
    let shown = match &word[..n] {
        b"--leaflet" => search_by(&rt, 2, 32),
        _ => search_by(&rt, 1, 256),
    };
    exit_code(&rt, NAME, shown)
}
