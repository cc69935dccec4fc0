// Plays traces with every verb, every refusal that a trace can draw and every malformed form, each from a file of data/, through `player::play`
// into a lent buffer: the answer lines, reports or signals, and then a line of the bytes written, the lines played and 0 or 6.
//
// The file stdout isn't made by the port: `compare/plain-answers` makes it of data/ with the plain Rust player of compare/, which plays the
// unmodified sources, and adds the line of the three numbers. Which overflows are 13 the Rust doesn't tell: a comment beside the trace does. The
// traces of random calls are `make-trace 1 600`, `2 600` and `3 600` of compare/, the hostile one is such a trace with bytes changed, and those of
// whole transfers are the ones of examples/.
#![tactic(auto)]

ghost use Rattle.std.specs.Prelude.{◌≤◌, ◌<◌, ◌^◌, length};

use answers::Output;
use commands::read_full;
use refusals::number_ended;
use std::fs;
use std::rt::Files;

fn text(rt: &impl Print, bytes: &[u8]) {
    let _ = rt.write_all(bytes);
}

fn number(rt: &impl Print, n: u64) {
    let _ = print!(rt; "{n}");
}

// Plays the trace into the buffer and prints what that gives.
fn show(rt: &impl Print, wanted: Output, trace: &[u8], out: &mut [u8]) {
    let s = player::play(wanted, trace, out);
    let written = s.written;
    text(rt, &out[0..written]);
    text(rt, b"= ");
    number(rt, written as u64);
    text(rt, b" ");
    number(rt, s.lines);
    text(rt, b" ");
    number(rt, number_ended(s.ended) as u64);
    text(rt, b"\n");
}

// How many bytes of a file it put at the start of `buf`, as far as there is room; the file is closed again. Of one that can't be opened nothing.
fn read_file(rt: &impl Files, name: &str, buf: &mut [u8]) -> usize
    ensures { result ≤ length buf.new }
{
    match fs::open(rt, name) {
        Ok(mut file) => read_full(&mut file, buf),
        Err(_) => 0,
    }
}

// Plays the trace of a file, with room for so many bytes.
fn file<const ROOM: usize>(rt: &(impl Files + Print), wanted: Output, name: &str)
    requires { ROOM < 2 ^ 32 }
{
    let mut trace = [0u8; 65536];
    let n = read_file(rt, name, &mut trace);
    text(rt, name.as_bytes());
    text(rt, b"\n");
    let mut out = [0u8; ROOM];
    show(rt, wanted, &trace[..n], &mut out);
}

// Plays the traces of files, with room for all that they give.
fn files(rt: &(impl Files + Print), wanted: Output, names: &[&str]) {
    for name in names {
        file::<65536>(rt, wanted, name);
    }
}

// With room for 79 and for 80 bytes.
fn narrow(rt: &(impl Files + Print), name: &str) {
    file::<79>(rt, Output::Answers, name);
    file::<80>(rt, Output::Answers, name);
}

fn forms(rt: &(impl Files + Print)) {
    files(
        rt,
        Output::Answers,
        &[
            "document-01.trace",
            "verbs.trace",
            "malformed.trace",
            "times.trace",
            "first-time-0.trace",
            "refused-7.trace", // 13 on lines 4 5 6
            "refused-13.trace", // 13 on lines 3
            "refused-8.trace",
            "empty.trace",
            "newline.trace",
            "newlines.trace",
        ],
    );
}

fn ends(rt: &(impl Files + Print)) {
    files(
        rt,
        Output::Answers,
        &[
            "last-open.trace",
            "last-open-malformed.trace",
            "open-long.trace",
        ],
    );
    narrow(rt, "document-01.trace");
    narrow(rt, "empty.trace");
    narrow(rt, "newline.trace");
    file::<4096>(rt, Output::Answers, "random-1.trace");
    file::<4096>(rt, Output::Answers, "malformed.trace");
}

fn transfers(rt: &(impl Files + Print)) {
    files(
        rt,
        Output::Answers,
        &[
            "master-write.trace",
            "slave-receive.trace",
            "synchronous-transfer.trace",
            "arbitration-loss.trace",
            "random-1.trace",
            "random-2.trace",
            "random-3.trace",
            "hostile.trace",
        ],
    );
}

fn reports(rt: &(impl Files + Print)) {
    files(
        rt,
        Output::Reports,
        &[
            "empty.trace",
            "times.trace",
            "malformed.trace",
            "master-write.trace",
            "random-1.trace",
        ],
    );
}

fn signals(rt: &(impl Files + Print)) {
    files(
        rt,
        Output::Waves,
        &[
            "empty.trace",
            "document-01.trace",
            "first-time-0.trace",
            "times.trace",
            "malformed.trace",
            "refused-7.trace",
            "arbitration-loss.trace",
        ],
    );
}

fn main(rt: HostRuntime) {
    forms(&rt);
    ends(&rt);
    transfers(&rt);
    reports(&rt);
    signals(&rt);
}
