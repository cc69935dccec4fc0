// The lookup in an address map as a static library, for a Rust host.
// The names and signatures are those that C links and may not change, and a static library is a crate of its own: so each export stands here and in the
// library map.
#![tactic(auto)]

ghost use Rattle.std.specs.Prelude.{◌≡◌};
ghost use Rattle.map.specs.Reading.{found_number, load_of, lookup_in};

// The lookup in the map of a text: the unit's number, or what refuses the map.
#[unsafe(no_mangle)]
pub extern "C" fn map_unit(text: &[u8], address: u16) -> u64
    ensures { result ≡ found_number (lookup_in (load_of text.now) address) }
{
    map::map_unit(text, address)
}
