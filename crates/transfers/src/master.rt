// The peripheral as the master, over the trace player's clocks, and the sensor at the other end of its wires.
use super::board::Board;
use bus::Levels;
use clocks::Clocks;
use iic::Iic;
use refusals::Refusal;
use sensor::Change;
use time::Time;

const TDRE: u8 = 0x80;

const TEND: u8 = 0x40;

const RDRF: u8 = 0x20;

const STOP: u8 = 0x08;

#[derive(Clone, Copy)]
pub(crate) struct Bench {
    pub iic: Iic,
    pub board: Board,
    pub now: Time,
    pub wires: Levels,
    pub clocks: Clocks,
}

const HIGH: Levels = Levels {
    scl: true,
    sda: true,
};

// A refusal counts as its number.
fn answer(read: Result<u8, Refusal>) -> u8 {
    read.unwrap_or_else(|refusal| refusal.number())
}

impl Bench {
    pub(crate) fn new(board: Board, clocks: Clocks) -> Bench {
        let now = Time {
            seconds: 0,
            fraction: 1,
        };
        Bench {
            iic: Iic::new().set_gate(true, now, clocks).state,
            board,
            now,
            wires: HIGH,
            clocks,
        }
    }

    // The sensor sees what the peripheral drives, and the peripheral the wires.
    fn settle(&mut self) {
        // The lines are released while the peripheral is disabled.
        let driven = self.iic.pins().unwrap_or(HIGH);
        let current = bus::wired(driven, self.board.state.pins());
        self.board.edge(Change {
            previous: self.wires,
            current,
        });
        self.wires = bus::wired(driven, self.board.state.pins());
        let told = self
            .iic
            .input_pins(self.wires.scl, self.wires.sda, self.now, self.clocks);
        self.iic = told.state;
    }

    // The next wait that ends, if one runs.
    fn visit(&mut self) {
        if let Ok(Some(now)) = self.iic.deadline(self.clocks) {
            self.now = now;
            self.iic = self.iic.advance(now, self.clocks).state;
            self.settle();
        }
    }

    fn put(&mut self, address: u16, value: u8) {
        self.iic = self.iic.write(address, value, self.now, self.clocks).state;
        self.settle();
    }

    fn get(&mut self, address: u16) -> u8 {
        let read = self.iic.read(address, self.now, self.clocks);
        self.iic = read.state;
        self.settle();
        answer(read.answer)
    }

    // Visits until a flag of ICSR is set.
    fn wait(&mut self, rt: &impl Print, flag: u8) {
        for _ in 0..4000u32 {
            if self.iic.peek(4) & flag != 0 {
                return;
            }
            self.visit();
        }
        let _ = println!(rt; "the flag never came");
    }

    // A byte goes out once ICDRT is free.
    fn send(&mut self, rt: &impl Print, value: u8) {
        self.wait(rt, TDRE);
        self.put(6, value);
    }

    // A flag is read as set, and written 0.
    fn clear(&mut self) {
        self.get(4);
        self.put(4, 0);
    }

    fn stop(&mut self, rt: &impl Print) {
        self.put(1, 0x10);
        self.wait(rt, STOP);
        self.clear();
    }

    pub(crate) fn write(&mut self, rt: &impl Print, pointer: u8, value: u8) {
        self.put(0, 0xb0);
        self.put(1, 0x90);
        self.send(rt, 0x70);
        self.send(rt, pointer);
        self.send(rt, value);
        self.wait(rt, TEND);
        self.clear();
        self.stop(rt);
    }

    // The register's number goes out, and then the address for a read.
    fn ask(&mut self, rt: &impl Print, pointer: u8) {
        self.put(0, 0xb0);
        self.put(1, 0x90);
        self.send(rt, 0x70);
        self.send(rt, pointer);
        self.wait(rt, TEND);
        self.put(1, 0x90);
        self.send(rt, 0x71);
        self.wait(rt, TEND);
        self.clear();
    }

    // Two bytes from a pointer on: ICDRR is read once to begin, then with the acknowledge of the last byte set to none.
    pub(crate) fn read_two(&mut self, rt: &impl Print, pointer: u8) -> [u8; 2] {
        self.ask(rt, pointer);
        self.put(0, 0xa0);
        self.get(7);
        self.wait(rt, RDRF);
        self.put(3, 1);
        self.put(0, 0xe0);
        let first = self.get(7);
        self.wait(rt, RDRF);
        self.stop(rt);
        let second = self.get(7);
        self.put(0, 0x80);
        [first, second]
    }
}
