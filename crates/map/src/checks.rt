// Whether each address lies in one range, and in which.
ghost use Rattle.std.specs.Prelude.{◌≡◌, ◌≤◌, length};
ghost use Rattle.map.specs.Map.{check_of, lies, lookup_of, lowest, range_sound, ranges_of, unit_at, wrong_of};
ghost use Rattle.map.specs.Spans.{Held, held_in, in_none_of, in_two_of, lower_after, lower_of};

use super::{Fault, Map, Range};

// First and last addresses side by side, where a range holds none past those of the map.
// Two arrays are kept: over one array of pairs counting the holders of an address takes 22 nanoseconds in place of 10, and a check counts 129 times.
#[derive(Clone, Copy)]
struct Spans {
    firsts: [u16; 64],
    lasts: [u16; 64],
}

impl Range {
    #[tactic(auto, unfolding(crate::specs::Map::range_sound))]
    pub(crate) fn is_sound(self) -> bool
        ensures { result ≡ range_sound self }
    {
        self.first <= self.last && self.unit.is_none_or(|n| n < 4)
    }

    fn holds(self, address: u16) -> bool
        ensures { result ≡ lies address self }
    {
        self.first <= address && address <= self.last
    }
}

// The lower of two addresses, where the second counts; 65536 stands for none, as `lowest` in specs/Map.antt has it.
fn lower(least: u32, address: u16, counts: bool) -> u32
    ensures { result ≡ lower_of least address counts }
{
    let at = address as u32;
    let better = counts & (at < least);
    if better { at } else { least }
}

impl Spans {
    // How many ranges an address lies in.
    // No `filter(..).count()`, which takes 38 nanoseconds in place of 10: a sum of 16 bits is taken eight places at once.
    fn holders(&self, address: u16) -> u16
        ensures { result ≡ held_in self.now.firsts self.now.lasts address }
    {
        let mut n = 0u16;
        for i in 0..64 {
            let held = (self.firsts[i] <= address) & (address <= self.lasts[i]);
            n += held as u16;
        }
        n
    }

    // The lowest address that lies in two ranges, 65536 where there is none: the lowest at which a range starts.
    fn lowest_in_two(&self) -> u32
        ensures { result ≡ lowest (in_two_of self.now.firsts self.now.lasts) }
    {
        let mut least = 65536u32;
        for &at in &self.firsts {
            let two = 1 < self.holders(at);
            least = lower(least, at, two);
        }
        least
    }

    // The lower of two addresses, where the second is the one after that and lies in no range.
    #[tactic(auto, unfolding(crate::specs::Spans::lower_after))]
    fn lower_after(&self, last: u16, least: u32) -> u32
        ensures { result ≡ lower_after self.now.firsts self.now.lasts last least }
    {
        match last.checked_add(1) {
            Some(at) => lower(least, at, self.holders(at) == 0),
            None => least,
        }
    }

    // The lowest address that lies in no range, 65536 where there is none: the lowest after a range, or 0.
    fn lowest_in_none(&self) -> u32
        ensures { result ≡ lowest (in_none_of self.now.firsts self.now.lasts) }
    {
        let none = self.holders(0) == 0;
        let mut least = lower(65536, 0, none);
        for &last in &self.lasts {
            least = self.lower_after(last, least);
        }
        least
    }
}

impl Map {
    // The ranges that it counts.
    fn lines(&self) -> &[Range]
        ensures ranges { result.now ≡ ranges_of self.now }
        ensures few { length result.now ≤ 64 }
    {
        &self.ranges[..self.count.min(64)]
    }

    // The number, from 1, of the first line that is none.
    fn wrong_line(&self) -> Option<u16>
        ensures { result ≡ wrong_of self.now }
    {
        for (i, range) in self.lines().iter().enumerate() {
            if !range.is_sound() {
                return Some(i as u16 + 1);
            }
        }
        if 64 < self.count { Some(65) } else { None }
    }

    fn spans(&self) -> Spans
        ensures { Held result.firsts result.lasts (ranges_of self.now) }
    {
        let mut firsts = [1u16; 64];
        let mut lasts = [0u16; 64];
        for (i, range) in self.lines().iter().enumerate() {
            firsts[i] = range.first;
            lasts[i] = range.last;
        }
        Spans { firsts, lasts }
    }

    // Whether each address lies in one range.
    pub fn check(self) -> Result<(), Fault>
        ensures { result ≡ check_of self }
    {
        if let Some(line) = self.wrong_line() {
            return Err(Fault::Line(line));
        }
        let spans = self.spans();
        let two = spans.lowest_in_two();
        if two < 65536 {
            return Err(Fault::InTwo(two as u16));
        }
        let none = spans.lowest_in_none();
        if none < 65536 {
            return Err(Fault::InNone(none as u16));
        }
        Ok(())
    }

    // The unit of an address.
    pub(crate) fn unit_at(&self, address: u16) -> Option<u8>
        ensures { result ≡ unit_at (ranges_of self.now) address }
    {
        for range in self.lines() {
            if range.holds(address) {
                return range.unit;
            }
        }
        None
    }

    // The unit of an address, of a map that is accepted.
    #[tactic(auto, unfolding(crate::specs::Map::lookup_of))]
    pub fn lookup(self, address: u16) -> Result<Option<u8>, Fault>
        ensures { result ≡ lookup_of self address }
    {
        self.check()?;
        Ok(self.unit_at(address))
    }
}
