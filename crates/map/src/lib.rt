// An address map that users edit (document 02, (n)).
#![tactic(auto)]

ghost use Rattle.std.specs.Prelude.{◌≡◌};
ghost use Rattle.map.specs.Map.{fault_place, fault_refusal};
ghost use Rattle.map.specs.Reading.{found_number, load_of, lookup_in};

use refusals::Refusal;
use std::error::Error;
use std::fmt;

pub mod checks;
pub mod reading;

use reading::{Refused, load};

// A line of a map: the addresses from the first to the last, and their unit, None for `-`.
#[derive(Clone, Copy, Debug, PartialEq, Eq)]
pub struct Range {
    pub first: u16,
    pub last: u16,
    pub unit: Option<u8>,
}

// A map: as many of the ranges as it counts, in any order.
#[derive(Clone, Copy)]
pub struct Map {
    // kept, a buffer with a count: it is handed in with any count, and one above 64 draws 4 at line 65 (document 02, (n)); no heap
    pub ranges: [Range; 64],
    pub count: usize,
}

// Why a map is refused: a line, by its number from 1, is none; or the lowest address that lies in two lines, or in none.
#[derive(Clone, Copy, Debug, PartialEq, Eq, Drop)]
pub enum Fault {
    Line(u16),
    InTwo(u16),
    InNone(u16),
}

impl Fault {
    pub fn refusal(self) -> Refusal
        ensures { result ≡ fault_refusal self }
    {
        match self {
            Fault::Line(_) => Refusal::Malformed,
            Fault::InTwo(_) => Refusal::Overlap,
            Fault::InNone(_) => Refusal::Gap,
        }
    }

    // The line or the address.
    pub fn place(self) -> u16
        ensures { result ≡ fault_place self }
    {
        match self {
            Fault::Line(at) | Fault::InTwo(at) | Fault::InNone(at) => at,
        }
    }
}

impl Error for Fault {}

impl fmt::Display for Fault {
    fn fmt<W: fmt::Write>(&self, f: &mut fmt::Formatter<W>) -> fmt::Result {
        match self {
            Fault::Line(at) => write!(f, "4, line {at} is no line of a map, which has at most 64"),
            Fault::InTwo(at) => write!(f, "19, address {at:04x} lies in two lines"),
            Fault::InNone(at) => write!(f, "20, address {at:04x} lies in no line"),
        }
    }
}

// What a lookup finds, in one number: a unit, 4 for none, or 65536 times a refusal and its line or address.
pub fn found_number(found: Result<Option<u8>, Fault>) -> u64
    ensures { result ≡ found_number found }
{
    match found {
        Ok(unit) => unit.map_or(4, u64::from),
        Err(fault) => fault.refusal().number() as u64 * 65536 + fault.place() as u64,
    }
}

// The unit of an address in the map of a text, where that is accepted.
pub fn lookup_in(loaded: Result<Map, Refused>, address: u16) -> Result<Option<u8>, Fault>
    ensures { result ≡ lookup_in loaded address }
{
    match loaded {
        Ok(map) => map.lookup(address),
        Err(refused) => Err(refused.fault),
    }
}

// The lookup in the map of a text, for a Rust host.
#[unsafe(no_mangle)]
pub extern "C" fn map_unit(text: &[u8], address: u16) -> u64
    ensures { result ≡ found_number (lookup_in (load_of text.now) address) }
{
    found_number(lookup_in(load(text), address))
}
