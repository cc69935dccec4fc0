// The sensor at the end of wires. First a master by its levels writes a register, then sets the pointer and reads two: a line for
// each edge with the levels that come to the sensor, those after its pull, and what it asks of its registers. Then the
// peripheral is the master over the same wires, and the bytes that come out are compared with those that went in.
#![tactic(auto)]

mod board;
mod levels;
mod master;
mod show;

use board::Board;
use clocks::{Clocks, Frequencies};
use levels::Wires;
use master::Bench;
use show::verdict;
use time::Time;

fn clock_set() -> Clocks {
    let start = Time {
        seconds: 0,
        fraction: 0,
    };
    Clocks::new(start, Frequencies::default()).clocks
}

fn by_levels(rt: &impl Print) {
    let mut board = Board::new();
    board.store(0x0b, 0x96);
    let mut wires = Wires::new(board);
    wires.transfer(rt, 0x0a, 0x5c);
    let stored = wires.board.register(0x0a);
    let same = verdict(stored == 0x5c);
    let _ = println!(rt; "register 0a {stored:02x} {same}");
}

// Two bytes written, the first by the peripheral, and both read back by it.
fn by_the_peripheral(rt: &impl Print, pointer: u8, bytes: [u8; 2], k: Clocks) {
    let [value, next] = bytes;
    let mut board = Board::new();
    board.store(pointer % 128 + 1, next);
    let mut bench = Bench::new(board, k);
    bench.write(rt, pointer, value);
    let stored = bench.board.register(pointer);
    let same = verdict(stored == value);
    let _ = println!(rt; "sent {value:02x} register {stored:02x} {same}");
    let [first, second] = bench.read_two(rt, pointer);
    let same = verdict([first, second] == bytes);
    let _ = println!(rt;
        "registers {value:02x} {next:02x} received {first:02x} {second:02x} {same}"
    );
}

fn main(rt: HostRuntime) {
    let k = clock_set();
    by_levels(&rt);
    by_the_peripheral(&rt, 0x0a, [0x5c, 0x96], k);
    by_the_peripheral(&rt, 0x7f, [0x00, 0xff], k);
    by_the_peripheral(&rt, 0x00, [0xff, 0x80], k);
}
