// The lines of a text, one after the other.
ghost use Rattle.std.specs.Iterator.{YieldsFirstRef, item_count};
ghost use Rattle.lines.specs.Lines.{lines_in};

use super::ends::{line_end, past};

// The lines of what is left of a text: all of them where the text ends with it, else those that are closed.
#[derive(Clone, Copy)]
pub struct Lines<'a> {
    pub rest: &'a [u8],
    pub ended: bool,
}

impl<'a> Iterator for Lines<'a> {
    type Item = &'a [u8];

    ghost next_gives = { YieldsFirstRef (λ s. lines_in s.ended s.rest.now) };

    ghost remaining = { item_count (λ s. lines_in s.ended s.rest.now) };

    fn next(&mut self) -> Option<&'a [u8]> {
        let text = self.rest;
        if text.is_empty() {
            return None;
        }
        let end = line_end(text, 0);
        let closed = end < text.len();
        let whole = self.ended | closed;
        if !whole {
            return None;
        }
        self.rest = &text[past(end, text.len())..];
        Some(&text[..end])
    }
}
