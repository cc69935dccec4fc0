// How the program prints what it prints.
use bus::Levels;
use sensor::Effect;
use std::fmt;

// Two levels as digits, SCL first.
#[derive(Clone, Copy)]
pub(crate) struct Digits(pub Levels);

impl fmt::Display for Digits {
    fn fmt<W: fmt::Write>(&self, f: &mut fmt::Formatter<W>) -> fmt::Result {
        let Levels { scl, sda } = self.0;
        write!(f, "{}{}", u8::from(scl), u8::from(sda))
    }
}

// What an edge asks, after a space; nothing where it asks nothing.
#[derive(Clone, Copy)]
pub(crate) struct Asked(pub Option<Effect>);

impl fmt::Display for Asked {
    fn fmt<W: fmt::Write>(&self, f: &mut fmt::Formatter<W>) -> fmt::Result {
        match self.0 {
            None => Ok(()),
            Some(Effect::Write(pointer, value)) => write!(f, " write {pointer:02x} {value:02x}"),
            Some(Effect::Prepare(pointer)) => write!(f, " prepare {pointer:02x}"),
            Some(Effect::Acknowledge(pointer)) => write!(f, " read {pointer:02x}"),
        }
    }
}

pub(crate) fn verdict(equal: bool) -> &'static str {
    if equal { "equal" } else { "NOT equal" }
}
