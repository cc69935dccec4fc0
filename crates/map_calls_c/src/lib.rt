// The address map over words as a static library, for the comparison.
// The names and signatures are those that C links and may not change, and a static library is a crate of its own: so each export stands here and in the
// library map_calls.
#![tactic(auto)]

ghost use Rattle.std.specs.Prelude.{◌≡◌, ◌%◌};
ghost use Rattle.map.specs.Map.{lookup_of};
ghost use Rattle.map.specs.Reading.{found_number};
ghost use Rattle.through.specs.Through.{read_through, write_through};
ghost use Rattle.answers.specs.Calls.{trace_clocks};
ghost use Rattle.map_calls.specs.Made.{four_units, made_map, moment, read_number, write_number};

// The lookup in a map.
#[unsafe(no_mangle)]
pub extern "C" fn made_unit(words: &[u64; 64], count: usize, address: u16) -> u64
    ensures { result ≡ found_number (lookup_of (made_map words.now count) address) }
{
    map_calls::made_unit(words, count, address)
}

// A read through a map of one of four peripherals whose SAR holds 10, 20, 30 and 40: the byte, or 65536 times the refusal and its line or address.
#[unsafe(no_mangle)]
pub extern "C" fn made_read(words: &[u64; 64], count: usize, units: usize, address: u16) -> u64
    ensures { result ≡ read_number (read_through (made_map words.now count) units four_units address moment trace_clocks) }
{
    map_calls::made_read(words, count, units, address)
}

// A write in the same way: what the register of that address shows then in one of the peripherals, or the refusal as above.
#[unsafe(no_mangle)]
pub extern "C" fn made_write(
    words: &[u64; 64],
    count: usize,
    units: usize,
    address: u16,
    value: u8,
    shows: u8,
) -> u64
    ensures { result ≡ write_number (shows % 4) address (write_through (made_map words.now count) units four_units address value moment trace_clocks) }
{
    map_calls::made_write(words, count, units, address, value, shows)
}
