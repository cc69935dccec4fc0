// The I2C bus as UM10204 describes it: two drivers of a line, start and stop on two successive pairs of levels, the order of a byte's bits,
// acknowledge, and what an address byte asks.
#![tactic(auto)]

ghost use Rattle.std.specs.Prelude.{◌≡◌};
ghost use Rattle.bus.specs.Bits.{flag};
ghost use Rattle.bus.specs.Bus.{same_levels, is_start, is_stop, first_bit, shift_in, is_acknowledge, is_read, is_general_call, wired};

// The levels of the two lines; true is high.
#[derive(Clone, Copy, Debug, PartialEq, Eq)]
pub struct Levels {
    pub scl: bool,
    pub sda: bool,
}

// The mask where the test holds, else nothing.
pub fn flag(test: bool, mask: u8) -> u8
    ensures { result ≡ flag test mask }
{
    if test { mask } else { 0 }
}

// `==`, kept as a function since its contract says it in `same_levels`, which the definition of an idle call cites.
pub fn same_levels(a: Levels, b: Levels) -> bool
    ensures { result ≡ same_levels a b }
{
    a == b
}

// The levels of wires that two drive.
pub fn wired(a: Levels, b: Levels) -> Levels
    ensures { result ≡ wired a b }
{
    Levels {
        scl: a.scl & b.scl,
        sda: a.sda & b.sda,
    }
}

// SDA falls while SCL was high and remains high.
pub fn is_start(old: Levels, new: Levels) -> bool
    ensures { result ≡ is_start old new }
{
    old.scl & new.scl & old.sda & !new.sda
}

// SDA rises while SCL was high and remains high.
pub fn is_stop(old: Levels, new: Levels) -> bool
    ensures { result ≡ is_stop old new }
{
    old.scl & new.scl & !old.sda & new.sda
}

// The bit of a byte that goes over the line first.
pub fn first_bit(byte: u8) -> bool
    ensures { result ≡ first_bit byte }
{
    byte & 0x80 != 0
}

// The byte after one more bit was sampled.
pub fn shift_in(byte: u8, bit: bool) -> u8
    ensures { result ≡ shift_in byte bit }
{
    (byte << 1) | flag(bit, 1)
}

// Whether the level of SDA at the ninth clock acknowledges.
pub fn is_acknowledge(sda: bool) -> bool
    ensures { result ≡ is_acknowledge sda }
{
    !sda
}

// Whether an address byte asks for a read.
pub fn is_read(byte: u8) -> bool
    ensures { result ≡ is_read byte }
{
    byte & 1 != 0
}

// Whether an address byte is the general call.
pub fn is_general_call(byte: u8) -> bool
    ensures { result ≡ is_general_call byte }
{
    byte == 0
}
