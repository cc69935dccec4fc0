// The sensor with 128 registers behind its parser, available all the time.
use sensor::{Change, Effect, Outside, State};

#[derive(Clone, Copy)]
pub(crate) struct Board {
    pub state: State,
    pub tx: Option<u8>,
    // What the last edge asked for.
    pub effect: Option<Effect>,
    pub registers: [u8; 128],
}

impl Board {
    pub(crate) fn new() -> Board {
        Board {
            state: State::new(),
            tx: None,
            effect: None,
            registers: [0; 128],
        }
    }

    pub(crate) fn register(&self, pointer: u8) -> u8 {
        self.registers[(pointer % 128) as usize]
    }

    pub(crate) fn store(&mut self, pointer: u8, byte: u8) {
        self.registers[(pointer % 128) as usize] = byte;
    }

    // An edge: what it asks for is done, and then it is made.
    pub(crate) fn edge(&mut self, change: Change) {
        self.effect = self.state.effect_at(change, false, false);
        let prepared = match self.effect {
            Some(Effect::Prepare(pointer)) => Some(self.register(pointer)),
            _ => None,
        };
        let outside = Outside {
            blocked: false,
            quiet: false,
            written: Ok(false),
            prepared,
            tx: self.tx,
        };
        let made = self.state.i2c_pins(change, outside);
        self.state = made.state;
        self.tx = made.tx;
        if let Some(Effect::Write(pointer, byte)) = self.effect {
            self.store(pointer, byte);
        }
    }
}
