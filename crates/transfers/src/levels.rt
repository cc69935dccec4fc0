// A master by its levels, and the sensor on the same wires.
use super::board::Board;
use super::show::{Asked, Digits};
use bus::Levels;
use sensor::Change;

// What the master drives, and the wires as they have settled.
#[derive(Clone, Copy)]
pub(crate) struct Wires {
    pub board: Board,
    pub driven: Levels,
    pub settled: Levels,
}

impl Wires {
    pub(crate) fn new(board: Board) -> Wires {
        let high = Levels {
            scl: true,
            sda: true,
        };
        Wires {
            board,
            driven: high,
            settled: high,
        }
    }

    // The master drives the lines; a line for the edge: the levels that come to the sensor, those after its pull, and what it asks.
    fn drive(&mut self, rt: &impl Print, scl: bool, sda: bool) {
        self.driven = Levels { scl, sda };
        let current = bus::wired(self.driven, self.board.state.pins());
        self.board.edge(Change {
            previous: self.settled,
            current,
        });
        self.settled = bus::wired(self.driven, self.board.state.pins());
        let asked = Asked(self.board.effect);
        let _ = println!(rt; "{} {}{asked}", Digits(current), Digits(self.settled));
    }

    fn start(&mut self, rt: &impl Print) {
        let _ = println!(rt; "start");
        self.drive(rt, false, true);
        self.drive(rt, true, true);
        self.drive(rt, true, false);
    }

    fn stop(&mut self, rt: &impl Print) {
        let _ = println!(rt; "stop");
        self.drive(rt, false, false);
        self.drive(rt, true, false);
        self.drive(rt, true, true);
    }

    // SCL falls, SDA takes the level, SCL rises.
    fn clock(&mut self, rt: &impl Print, level: bool) {
        self.drive(rt, false, self.driven.sda);
        self.drive(rt, false, level);
        self.drive(rt, true, level);
    }

    // A byte, high bit first, and SDA released for its acknowledge.
    fn send(&mut self, rt: &impl Print, value: u8) {
        let _ = println!(rt; "byte {value:02x}");
        for n in 0..8u8 {
            self.clock(rt, bus::first_bit(value << n));
        }
        self.clock(rt, true);
    }

    // A byte of the sensor's, with SDA released, and the master's acknowledge.
    fn receive(&mut self, rt: &impl Print, more: bool) -> u8 {
        let _ = println!(rt; "read");
        let mut byte = 0;
        for _ in 0..8u8 {
            self.clock(rt, true);
            byte = bus::shift_in(byte, self.settled.sda);
        }
        self.clock(rt, !more);
        byte
    }

    // A register is written; then it and the next are read.
    pub(crate) fn transfer(&mut self, rt: &impl Print, pointer: u8, value: u8) {
        self.start(rt);
        self.send(rt, 0x70);
        self.send(rt, pointer);
        self.send(rt, value);
        self.stop(rt);
        self.start(rt);
        self.send(rt, 0x70);
        self.send(rt, pointer);
        self.start(rt);
        self.send(rt, 0x71);
        let first = self.receive(rt, true);
        let second = self.receive(rt, false);
        self.stop(rt);
        let _ = println!(rt; "read {first:02x} {second:02x}");
    }
}
