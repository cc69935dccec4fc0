// `read` and `write` once more, for hosts that hold one peripheral: it is lent by reference and changed in its place.
#![tactic(auto)]

ghost use Rattle.std.specs.Prelude.{◌≡◌};
ghost use Rattle.iic.specs.Calls.{read_of, write_of};
ghost use Rattle.lent.specs.WriteRead.{write_read_of};

use clocks::Clocks;
use iic::Iic;
use refusals::Refusal;
use time::Time;

pub fn read(p: &mut Iic, address: u16, time: Time, clocks: Clocks) -> Result<u8, Refusal>
    ensures answer { result ≡ (read_of p.old address time clocks).answer }
    ensures state { p.new ≡ (read_of p.old address time clocks).state }
{
    let s = *p;
    let t = s.read(address, time, clocks);
    *p = t.state;
    t.answer
}

pub fn write(
    p: &mut Iic,
    address: u16,
    value: u8,
    time: Time,
    clocks: Clocks,
) -> Result<(), Refusal>
    ensures ended { result ≡ (write_of p.old address value time clocks).answer }
    ensures state { p.new ≡ (write_of p.old address value time clocks).state }
{
    let s = *p;
    let t = s.write(address, value, time, clocks);
    *p = t.state;
    t.answer
}

// How a write ended, what the read after it answered, and the state that the two left.
#[derive(Clone, Copy)]
pub struct Both {
    pub ended: Result<(), Refusal>,
    pub answer: Result<u8, Refusal>,
    pub state: Iic,
}

// A host that holds one peripheral in a local and lends it, to a write and then to a read.
#[tactic(auto, unfolding(crate::specs::WriteRead::write_read_of))]
pub fn write_read(
    s: Iic,
    address: u16,
    value: u8,
    time: Time,
    source: u16,
    later: Time,
    clocks: Clocks,
) -> Both
    ensures { result ≡ write_read_of s address value time source later clocks }
{
    let mut p = s;
    let e = write(&mut p, address, value, time, clocks);
    let a = read(&mut p, source, later, clocks);
    Both {
        ended: e,
        answer: a,
        state: p,
    }
}
