// The unstarred row of document 01 and its five misreadings, run against what they should give: a line each.
#![tactic(auto)]

use bus::Levels;
use clocks::{Clocks, Frequencies};
use iic::Iic;
use refusals::Refusal;
use time::{Clock, Time};

fn at(fraction: u64) -> Time {
    Time {
        seconds: 0,
        fraction,
    }
}

fn clock_set() -> Clocks {
    Clocks::new(at(0), Frequencies::default()).clocks
}

fn text(rt: &impl Print, bytes: &[u8]) {
    let _ = rt.write_all(bytes);
}

fn byte(rt: &impl Print, n: u8) {
    let _ = print!(rt; "{n:02x}");
}

fn digit(rt: &impl Print, b: bool) {
    let _ = print!(rt; "{}", u8::from(b));
}

fn levels(rt: &impl Print, l: Levels) {
    digit(rt, l.scl);
    digit(rt, l.sda);
}

// The levels that are driven, `-` while none are.
fn pins(rt: &impl Print, s: Iic) {
    match s.pins() {
        None => text(rt, b"-"),
        Some(l) => levels(rt, l),
    }
}

fn moment(rt: &impl Print, t: Time) {
    let Time { seconds, fraction } = t;
    let _ = print!(rt; "{seconds}:{fraction:016x}");
}

fn refusal(rt: &impl Print, e: Refusal) {
    let _ = print!(rt; "refused {}", e.number());
}

fn deadline(rt: &impl Print, s: Iic, k: Clocks) {
    match s.deadline(k) {
        Ok(None) => text(rt, b"-"),
        Ok(Some(t)) => moment(rt, t),
        Err(e) => refusal(rt, e),
    }
}

fn truth(rt: &impl Print, t: Result<bool, Refusal>) {
    match t {
        Ok(b) => digit(rt, b),
        Err(e) => refusal(rt, e),
    }
}

fn write(s: Iic, address: u16, value: u8, fraction: u64, k: Clocks) -> Iic {
    s.write(address, value, at(fraction), k).state
}

// The peripheral enabled and gated on.
fn awake(k: Clocks) -> Iic {
    let s = Iic::new().set_gate(true, at(1), k).state;
    write(s, 0, 0x80, 2, k)
}

// Levels 1 0 on the default: 0.
fn unnoticed(rt: &impl Print, k: Clocks) {
    let given = Iic::new().input_pins(true, false, at(1), k);
    let answer = given.answer;
    truth(rt, answer);
    text(rt, b"\n");
}

// A visit later than a wait's time leaves it, one at that time ends it and starts the next.
fn passed(rt: &impl Print, k: Clocks) {
    let s = awake(k).input_pins(false, true, at(3), k).state;
    deadline(rt, s, k);
    text(rt, b" ");
    deadline(rt, s.advance(at(0x0000_048d_159e_26b0), k).state, k);
    text(rt, b" ");
    deadline(rt, s.advance(at(0x0000_048d_159e_26af), k).state, k);
    text(rt, b"\n");
}

// A refused call keeps what it did: the levels are those that the state holds.
fn kept(rt: &impl Print, k: Clocks) {
    let last = Time {
        seconds: u64::MAX,
        fraction: u64::MAX,
    };
    let first = awake(k).input_pins(false, true, last, k);
    let answer = first.answer;
    let second = first.state.input_pins(false, true, last, k);
    let again = second.answer;
    truth(rt, answer);
    text(rt, b" ");
    truth(rt, again);
    text(rt, b"\n");
}

// Edge 3 of 3 Hz falls on the second.
fn exact(rt: &impl Print) {
    let third = Clock {
        start: at(0),
        numerator: 3,
        denominator: 1,
        ordinal: 0,
        fraction: 0,
    };
    match third.after(3) {
        Ok(t) => moment(rt, t),
        Err(e) => refusal(rt, e),
    }
    text(rt, b"\n");
}

// The write that lifts the reset starts no frame; the visit after it does.
fn lifted(rt: &impl Print, k: Clocks) {
    let s = Iic::new().set_gate(true, at(1), k).state;
    let s = write(write(s, 5, 0x01, 2, k), 0, 0xb0, 3, k);
    let s = write(write(write(s, 1, 0x02, 4, k), 6, 0x55, 5, k), 1, 0x00, 6, k);
    pins(rt, s);
    text(rt, b" ");
    byte(rt, s.peek(4));
    text(rt, b" ");
    deadline(rt, s, k);
    let v = s.advance(at(7), k).state;
    text(rt, b" ");
    pins(rt, v);
    text(rt, b" ");
    byte(rt, v.peek(4));
    text(rt, b"\n");
}

// A write of ICDRT takes TDRE out of what was seen: raised anew, it isn't cleared.
fn unseen(rt: &impl Print, k: Clocks) {
    let s = write(Iic::new(), 0, 0x10, 1, k);
    let r = s.read(4, at(2), k).state;
    let s = write(write(write(r, 6, 0x55, 3, k), 0, 0x00, 4, k), 0, 0x10, 5, k);
    byte(rt, write(s, 4, 0x00, 6, k).peek(4));
    text(rt, b"\n");
}

fn main(rt: HostRuntime) {
    let k = clock_set();
    unnoticed(&rt, k);
    passed(&rt, k);
    kept(&rt, k);
    exact(&rt);
    lifted(&rt, k);
    unseen(&rt, k);
}
