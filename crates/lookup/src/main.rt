// Prints the unit of each address that is an argument, or `-` for none, by the map on standard input; or says on standard error, in one line, why the map
// is refused, with the line or the lowest address.
#![tactic(auto)]

use commands::{exit_code, is_given, read_full};
use map::Map;
use map::reading::{address, load};
use std::io;
use std::io::Read;
use std::process::ExitCode;
use std::rt::Env;

// What it is called on standard error.
const NAME: &str = "map";

// How many arguments there are, the program's own name among them.
fn arg_count(rt: &impl Env) -> usize {
    for i in 0..usize::MAX {
        if !is_given(rt.arg(i, &mut [0; 1])) {
            return i;
        }
    }
    usize::MAX
}

// The address that is the argument at a place: four hexadecimal digits.
fn word_at(rt: &impl Env, at: usize) -> Option<u16> {
    let mut word = [0u8; 4096];
    let n = rt.arg(at, &mut word).ok()?;
    match &word[..n] {
        &[a, b, c, d] => address(a, b, c, d),
        _ => None,
    }
}

// Whether each argument is an address.
fn all_addresses(rt: &impl Env, count: usize) -> bool {
    (1..count).all(|i| word_at(rt, i).is_some())
}

// Prints the unit of an address.
fn answer(rt: &(impl Print + Eprint), map: Map, address: u16) -> io::Result<()> {
    match map.lookup(address) {
        Ok(Some(unit)) => println!(rt; "{unit}"),
        Ok(None) => println!(rt; "-"),
        Err(fault) => {
            let _ = eprintln!(rt; "{NAME}: {fault}");
            Ok(())
        }
    }
}

fn answer_all(rt: &(impl Env + Print + Eprint), map: Map, count: usize) -> io::Result<()> {
    for i in 1..count {
        if let Some(address) = word_at(rt, i) {
            answer(rt, map, address)?;
        }
    }
    Ok(())
}

fn look_up(rt: &(impl Env + Print + Eprint), text: &[u8], count: usize) -> io::Result<()> {
    match load(text) {
        Ok(map) => answer_all(rt, map, count),
        Err(refused) => {
            let _ = eprintln!(rt; "{NAME}: {}", refused.fault);
            Ok(())
        }
    }
}

// The first 780 bytes of a text decide what is read of it (`cut_is_same` in crates/map).
fn main(rt: HostRuntime) -> ExitCode {
    let count = arg_count(&rt);
    if !all_addresses(&rt, count) {
        let _ = eprintln!(rt; "{NAME}: ADDRESS is four lower-case hexadecimal digits");
        return ExitCode::SUCCESS;
    }
    let mut reader = rt.reader();
    let mut room = [0u8; 65536];
    let n = read_full(&mut reader, &mut room);
    let mut rest = [0u8; 4096];
    if reader.read(&mut rest).is_err() {
        let _ = eprintln!(rt; "{NAME}: standard input can't be read");
        return ExitCode::SUCCESS;
    }
    exit_code(&rt, NAME, look_up(&rt, &room[..n], count))
}
