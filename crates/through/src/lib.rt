// Calls of a bench's peripherals through a map (document 02, (n)).
#![tactic(auto)]

ghost use Rattle.std.specs.Prelude.{◌≡◌};
ghost use Rattle.through.specs.Through.{Reaches, among, at_target, of_map, read_through, refusal_of, refusal_place, target_of, write_through};

use clocks::Clocks;
use iic::{Answered, Iic};
use map::{Fault, Map};
use refusals::Refusal;
use time::Time;

// Why a call through a map is refused: the bench hasn't 1 to 4 peripherals, the map is refused, or the call itself is.
#[derive(Clone, Copy, Debug, PartialEq, Eq)]
pub enum Refused {
    Peripherals,
    Map(Fault),
    Call(Refusal),
}

// What a call through a map gives, and the states.
#[derive(Clone, Copy)]
pub struct Through<A> {
    pub answer: Result<A, Refused>,
    pub states: [Iic; 4],
}

impl Refused {
    pub fn refusal(self) -> Refusal
        ensures { result ≡ refusal_of self }
    {
        match self {
            Refused::Peripherals => Refusal::Peripherals,
            Refused::Map(fault) => fault.refusal(),
            Refused::Call(refusal) => refusal,
        }
    }

    // The line or the address that belongs to a refusal of the map, else 0.
    pub fn place(self) -> u16
        ensures { result ≡ refusal_place self }
    {
        match self {
            Refused::Map(fault) => fault.place(),
            Refused::Peripherals | Refused::Call(_) => 0,
        }
    }
}

impl From<Fault> for Refused {
    ghost from_gives = { λ f r. r ≡ of_map f };

    fn from(fault: Fault) -> Refused {
        Refused::Map(fault)
    }
}

// A call of the peripheral that is reached; where that is nobody, nothing is done, and what such a call gives is handed on.
fn at_target<A: Copy, F: FnOnce(Iic) -> Answered<A>>(
    target: Result<Option<u8>, Refused>,
    mut states: [Iic; 4],
    nobody: A,
    call: F,
) -> Through<A>
    requires below { Reaches 4 target }
    requires callable { F.IsAlwaysCallable call }
    ensures { (f : Iic → Answered A) → ((s : Iic) (r : Answered A) → F.post call s r → r ≡ f s) → result ≡ at_target states nobody f target }
{
    let answer = match target {
        Ok(None) => Ok(nobody),
        Ok(Some(u)) => {
            let done = call(states[u as usize]);
            states[u as usize] = done.state;
            done.answer.map_err(Refused::Call)
        }
        Err(refused) => Err(refused),
    };
    Through { answer, states }
}

// A unit among so many peripherals, where the bench has it.
fn among(unit: Option<u8>, count: usize) -> Option<u8>
    ensures { result ≡ among count unit }
{
    unit.filter(|&u| (u as usize) < count)
}

// Whom a call of that address reaches among so many peripherals, None for nobody.
#[tactic(auto, unfolding(crate::specs::Through::target_of))]
pub fn reach(map: Map, count: usize, address: u16) -> Result<Option<u8>, Refused>
    ensures target { result ≡ target_of map count address }
    ensures below { Reaches 4 result }
{
    let there = (1 <= count) & (count <= 4);
    if !there {
        return Err(Refused::Peripherals);
    }
    let unit = map.lookup(address)?;
    Ok(among(unit, count))
}

// A read through the map, of a bench of so many peripherals.
#[tactic(auto, unfolding(crate::specs::Through::read_through))]
pub fn read(
    map: Map,
    count: usize,
    states: [Iic; 4],
    address: u16,
    now: Time,
    clocks: Clocks,
) -> Through<u8>
    ensures { result ≡ read_through map count states address now clocks }
{
    let target = reach(map, count, address);
    at_target(target, states, 255, |s| s.read(address, now, clocks))
}

// A write through the map.
#[tactic(auto, unfolding(crate::specs::Through::write_through))]
pub fn write(
    map: Map,
    count: usize,
    states: [Iic; 4],
    address: u16,
    value: u8,
    now: Time,
    clocks: Clocks,
) -> Through<()>
    ensures { result ≡ write_through map count states address value now clocks }
{
    let target = reach(map, count, address);
    at_target(target, states, (), |s| s.write(address, value, now, clocks))
}
