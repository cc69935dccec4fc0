// A text as the map that it means.
ghost use Rattle.std.specs.Prelude.{◌≡◌, ◌≤◌};
ghost use Rattle.map.specs.Reading.{address_of, empty_map, if_fine, load_of, range_of, read_of, unit_of, with_line};

use super::{Fault, Map, Range};
use lines::ends::{line_end, past};
use lines::reading::digit;

// Why a text is refused, and the map of its lines up to the first that is none.
#[derive(Clone, Copy)]
pub struct Refused {
    pub fault: Fault,
    pub map: Map,
}

// An address of four hexadecimal digits.
pub fn address(a: u8, b: u8, c: u8, d: u8) -> Option<u16>
    ensures { result ≡ address_of a b c d }
{
    let high = digit(a, 16)? as u16 * 16 + digit(b, 16)? as u16;
    Some((high * 16 + digit(c, 16)? as u16) * 16 + digit(d, 16)? as u16)
}

// The unit that a byte means: `-` is none; another byte may be no unit at all.
#[tactic(auto, unfolding(crate::specs::Reading::unit_of))]
fn unit(b: u8) -> Option<Option<u8>>
    ensures { result ≡ unit_of b }
{
    if b == b'-' {
        Some(None)
    } else {
        Some(Some(digit(b, 4)?))
    }
}

// The range that a line means.
pub fn parse(line: &[u8]) -> Option<Range>
    ensures { result ≡ range_of line.now }
{
    let &[a, b, c, d, tab, e, f, g, h, next_tab, u] = line else {
        return None;
    };
    let parted = (tab == b'\t') & (next_tab == b'\t');
    if !parted {
        return None;
    }
    let range = Range {
        first: address(a, b, c, d)?,
        last: address(e, f, g, h)?,
        unit: unit(u)?,
    };
    if range.is_sound() { Some(range) } else { None }
}

impl Map {
    // No range.
    #[tactic(auto, unfolding(crate::specs::Reading::empty_map))]
    pub fn new() -> Map
        ensures { result ≡ empty_map }
    {
        Map {
            ranges: [Range {
                first: 0,
                last: 0,
                unit: None,
            }; 64],
            count: 0,
        }
    }

    // Takes a further line; one that is none leaves the map as it was.
    #[tactic(auto, unfolding(crate::specs::Reading::with_line))]
    fn with_line(&mut self, line: &[u8]) -> Result<(), Fault>
        requires { self.old.count ≤ 64 }
        ensures { if_fine self.new result ≡ with_line self.old line.now }
    {
        let at = self.count;
        let wrong = Fault::Line(at as u16 + 1);
        if 64 <= at {
            return Err(wrong);
        }
        let Some(range) = parse(line) else {
            return Err(wrong);
        };
        self.ranges[at] = range;
        self.count = at + 1;
        Ok(())
    }
}

// The map of the lines of a text.
fn read_lines(text: &[u8]) -> Result<Map, Refused>
    ensures { result ≡ read_of text.now }
{
    let mut map = Map::new();
    let mut at = 0usize;
    // no `for`: a line's length says where the next begins
    while at < text.len() {
        let end = line_end(text, at);
        if let Err(fault) = map.with_line(&text[at..end]) {
            return Err(Refused { fault, map });
        }
        at = past(end, text.len());
    }
    Ok(map)
}

// The map of a text, where it is accepted.
#[tactic(auto, unfolding(crate::specs::Reading::load_of))]
pub fn load(text: &[u8]) -> Result<Map, Refused>
    ensures { result ≡ load_of text.now }
{
    let map = read_lines(text)?;
    match map.check() {
        Ok(()) => Ok(map),
        Err(fault) => Err(Refused { fault, map }),
    }
}
