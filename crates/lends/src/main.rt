// Runs of lent writes and reads, with the calls by value beside them on a second peripheral. A line for each write and read
// tells how the lent write ended, what the lent read answered, and whether both and the two states are equal. At the end of
// a run come the registers 0 to 7 of the lent one, the levels that it drives, and the same question.
#![tactic(auto)]

use bus::Levels;
use clocks::{Clocks, Frequencies};
use iic::{Hold, Iic};
use refusals::Refusal;
use time::Time;

// Two peripherals that get the same calls: one lent, one by value.
#[derive(Clone, Copy)]
struct Hosts {
    lent: Iic,
    valued: Iic,
}

fn at(fraction: u64) -> Time {
    Time {
        seconds: 0,
        fraction,
    }
}

fn last_time() -> Time {
    Time {
        seconds: u64::MAX,
        fraction: u64::MAX,
    }
}

fn clock_set() -> Clocks {
    Clocks::new(at(0), Frequencies::default()).clocks
}

// A clock set with a frequency of 0.
fn dead_set() -> Clocks {
    let none = Frequencies {
        main_hz: 3_686_400,
        watch_hz: 32_768,
        on_chip_hz: 0,
    };
    Clocks::new(at(0), none).clocks
}

fn text(rt: &impl Print, bytes: &[u8]) {
    let _ = rt.write_all(bytes);
}

fn byte(rt: &impl Print, n: u8) {
    let _ = print!(rt; "{n:02x} ");
}

fn refusal(rt: &impl Print, e: Refusal) {
    let _ = print!(rt; "refused {} ", e.number());
}

fn end(rt: &impl Print, e: Result<(), Refusal>) {
    match e {
        Ok(()) => text(rt, b"done "),
        Err(e) => refusal(rt, e),
    }
}

fn answer(rt: &impl Print, a: Result<u8, Refusal>) {
    match a {
        Ok(n) => byte(rt, n),
        Err(e) => refusal(rt, e),
    }
}

fn levels(rt: &impl Print, l: Levels) {
    let _ = print!(rt; "{}{} ", u8::from(l.scl), u8::from(l.sda));
}

fn pins(rt: &impl Print, s: Iic) {
    match s.pins() {
        None => text(rt, b"- "),
        Some(l) => levels(rt, l),
    }
}

fn verdict(rt: &impl Print, same: bool) {
    if same {
        text(rt, b"as by value\n");
    } else {
        text(rt, b"NOT as by value\n");
    }
}

// A write, and a read at the time after it.
fn pair(
    rt: &impl Print,
    h: Hosts,
    address: u16,
    value: u8,
    time: Time,
    source: u16,
    later: Time,
    k: Clocks,
) -> Hosts {
    let both = lent::write_read(h.lent, address, value, time, source, later, k);
    let wrote = h.valued.write(address, value, time, k);
    let was = wrote.state.read(source, later, k);
    end(rt, both.ended);
    answer(rt, both.answer);
    verdict(
        rt,
        (both.ended == wrote.answer) & (both.answer == was.answer) & (both.state == was.state),
    );
    Hosts {
        lent: both.state,
        valued: was.state,
    }
}

fn step(
    rt: &impl Print,
    h: Hosts,
    address: u16,
    value: u8,
    fraction: u32,
    source: u16,
    k: Clocks,
) -> Hosts {
    let n = fraction as u64;
    pair(rt, h, address, value, at(n), source, at(n + 1), k)
}

// Four registers from a first one on.
fn four(rt: &impl Print, s: Iic, first: u16) {
    byte(rt, s.peek(first));
    byte(rt, s.peek(first | 1));
    byte(rt, s.peek(first | 2));
    byte(rt, s.peek(first | 3));
}

fn finish(rt: &impl Print, h: Hosts) {
    four(rt, h.lent, 0);
    four(rt, h.lent, 4);
    pins(rt, h.lent);
    verdict(rt, h.lent == h.valued);
}

fn started(s: Iic) -> Hosts {
    Hosts { lent: s, valued: s }
}

// Document 01: write 0 ← 10 gives the status 80; written 00 it stays 80; read and written 00 it is 00.
fn status(rt: &impl Print, k: Clocks) {
    let h = step(rt, started(Iic::new()), 0, 0x10, 1, 5, k);
    let h = step(rt, h, 4, 0x00, 3, 4, k);
    finish(rt, step(rt, h, 4, 0x00, 5, 4, k));
}

// Document 01: write 3 ← ff reads fd; write 2 ← ff reads f8; write 2 ← 07 reads 3f; write 2 ← 80, write 6 ← 01: 6 reads 80.
fn registers(rt: &impl Print, k: Clocks) {
    finish(rt, step(rt, started(Iic::new()), 3, 0xff, 1, 3, k));
    finish(rt, step(rt, started(Iic::new()), 2, 0xff, 1, 2, k));
    finish(rt, step(rt, started(Iic::new()), 2, 0x07, 1, 2, k));
    finish(
        rt,
        step(
            rt,
            step(rt, started(Iic::new()), 2, 0x80, 1, 5, k),
            6,
            0x01,
            3,
            6,
            k,
        ),
    );
}

// Document 01's trace: with the gate on, write 0 ← b0, read 4: 80; write 1 ← 90, read 1: 75, and SCL is driven low.
fn trace(rt: &impl Print, k: Clocks) {
    let h = started(Iic::new().set_gate(true, at(1), k).state);
    let h = step(rt, h, 0, 0xb0, 2, 4, k);
    finish(rt, step(rt, h, 1, 0x90, 4, 1, k));
}

// A refused write keeps what it did: the filter's wait ends past the last time, and control is 80 all the same.
fn refused_late(rt: &impl Print, k: Clocks) {
    let s = Iic::new().set_gate(true, at(1), k).state;
    let s = s.input_pins(false, true, at(2), k).state;
    finish(
        rt,
        pair(rt, started(s), 0, 0x80, last_time(), 0, last_time(), k),
    );
}

// Refusals 1 and 9 leave the state as it was.
fn refused_first(rt: &impl Print, k: Clocks) {
    let mut s = Iic::new();
    finish(rt, step(rt, started(s), 0, 0x80, 1, 4, dead_set()));
    s.registers.count = 9;
    finish(rt, step(rt, started(s), 0, 0x80, 1, 4, k));
}

// The default with SCL held low.
fn held(hold: Hold) -> Iic {
    Iic::new().with_hold(hold)
}

// A write of ICDRT, then a read of ICDRR, that would release SCL past the last time: refused 7 once, since the hold is gone.
fn refused_once(rt: &impl Print, k: Clocks) {
    let t = last_time();
    finish(
        rt,
        pair(rt, started(held(Hold::Transmit)), 6, 0x55, t, 7, t, k),
    );
    finish(
        rt,
        pair(rt, started(held(Hold::Receive)), 3, 0x00, t, 7, t, k),
    );
}

fn main(rt: HostRuntime) {
    let k = clock_set();
    status(&rt, k);
    registers(&rt, k);
    trace(&rt, k);
    refused_late(&rt, k);
    refused_once(&rt, k);
    refused_first(&rt, k);
}
