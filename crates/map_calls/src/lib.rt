// What a Rust program calls of maps that are handed in, for the comparison. A word has a range's first address in its bits 0 to 15, the last in 16 to 31, and
// in 32 to 39 its unit, 255 for none.
#![tactic(auto)]

ghost use Rattle.std.specs.Prelude.{◌≡◌, ◌%◌, ◌<◌};
ghost use Rattle.map.specs.Map.{lookup_of};
ghost use Rattle.map.specs.Reading.{found_number};
ghost use Rattle.through.specs.Through.{read_through, write_through};
ghost use Rattle.answers.specs.Calls.{trace_clocks};
ghost use Rattle.map_calls.specs.Made.{four_units, in_one_number, made_map, moment, range_of_word, read_number, shown_of, unit_of_word, unit_with, write_number};

use answers::trace_clocks;
use iic::Iic;
use map::{Map, Range, found_number};
use through::{Refused, Through};
use time::Time;

// The time of every call.
const NOW: Time = Time {
    seconds: 1,
    fraction: 0,
};

fn unit_of(n: u8) -> Option<u8>
    ensures { result ≡ unit_of_word n }
{
    if n == 255 { None } else { Some(n) }
}

#[tactic(auto, unfolding(crate::specs::Made::range_of_word))]
fn range_of(word: u64) -> Range
    ensures { result ≡ range_of_word word }
{
    Range {
        first: (word % 65536) as u16,
        last: (word / 65536 % 65536) as u16,
        unit: unit_of((word / 4294967296 % 256) as u8),
    }
}

// The map of so many of the words.
fn map_of(words: &[u64; 64], count: usize) -> Map
    ensures { result ≡ made_map words.now count }
{
    let mut ranges = [Range {
        first: 0,
        last: 0,
        unit: None,
    }; 64];
    for (i, &word) in words.iter().enumerate() {
        ranges[i] = range_of(word);
    }
    Map { ranges, count }
}

// The lookup in a map.
#[unsafe(no_mangle)]
pub extern "C" fn made_unit(words: &[u64; 64], count: usize, address: u16) -> u64
    ensures { result ≡ found_number (lookup_of (made_map words.now count) address) }
{
    found_number(map_of(words, count).lookup(address))
}

// A peripheral at its default but for SAR.
#[tactic(auto, unfolding(crate::specs::Made::unit_with))]
fn unit_with(sar: u8) -> Iic
    ensures { result ≡ unit_with sar }
{
    let state = Iic::new();
    let mut registers = state.registers;
    registers.address = sar;
    Iic { registers, ..state }
}

// Four that can be told apart.
#[tactic(auto, unfolding(crate::specs::Made::four_units))]
fn four_units() -> [Iic; 4]
    ensures { result ≡ four_units }
{
    [unit_with(16), unit_with(32), unit_with(48), unit_with(64)]
}

// A refusal in one number: 65536 times its own, and its line or address.
fn refusal_number(refused: Refused) -> u64
    ensures { result ≡ in_one_number refused }
{
    refused.refusal().number() as u64 * 65536 + refused.place() as u64
}

fn read_number(done: Through<u8>) -> u64
    ensures { result ≡ read_number done }
{
    match done.answer {
        Ok(byte) => byte as u64,
        Err(refused) => refusal_number(refused),
    }
}

// A read through a map of one of four peripherals whose SAR holds 10, 20, 30 and 40: the byte, or 65536 times the refusal and its line or address.
#[unsafe(no_mangle)]
pub extern "C" fn made_read(words: &[u64; 64], count: usize, units: usize, address: u16) -> u64
    ensures { result ≡ read_number (read_through (made_map words.now count) units four_units address moment trace_clocks) }
{
    let map = map_of(words, count);
    let done = through::read(map, units, four_units(), address, NOW, trace_clocks());
    read_number(done)
}

// What a register of one of the peripherals shows.
fn shown(states: [Iic; 4], u: u8, address: u16) -> u64
    requires { u < 4 }
    ensures { result ≡ shown_of states u address }
{
    let at = u as usize;
    let state = states[at];
    state.peek(address) as u64
}

fn write_number(done: Through<()>, u: u8, address: u16) -> u64
    requires { u < 4 }
    ensures { result ≡ write_number u address done }
{
    match done.answer {
        Ok(()) => shown(done.states, u, address),
        Err(refused) => refusal_number(refused),
    }
}

// A write in the same way: what the register of that address shows then in one of the peripherals, or the refusal as above.
#[unsafe(no_mangle)]
pub extern "C" fn made_write(
    words: &[u64; 64],
    count: usize,
    units: usize,
    address: u16,
    value: u8,
    shows: u8,
) -> u64
    ensures { result ≡ write_number (shows % 4) address (write_through (made_map words.now count) units four_units address value moment trace_clocks) }
{
    let map = map_of(words, count);
    let done = through::write(
        map,
        units,
        four_units(),
        address,
        value,
        NOW,
        trace_clocks(),
    );
    write_number(done, shows % 4, address)
}
