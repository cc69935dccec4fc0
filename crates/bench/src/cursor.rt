// A place in a script.
ghost use Rattle.std.specs.Prelude.{◌≡◌, ◌<◌};
ghost use Rattle.bench.specs.Cursor.{next_at, cursor_at, cursor_after};

use lines::Call;
use lines::ends::{line_end, past};
use script::parse;

// The place of the next line, the lines before it that were answered, and what it says: None where none is left, Some(None) where it is malformed.
#[derive(Clone, Copy)]
pub struct Cursor {
    pub at: usize,
    pub lines: u64,
    pub next: Option<Option<(u8, Call)>>,
}

// What the line at a place says, after so many lines.
fn next_at(script: &[u8], at: usize, lines: u64) -> Option<Option<(u8, Call)>>
    ensures { result ≡ next_at script.now at lines }
{
    if script.len() <= at {
        return None;
    }
    if 1000000 <= lines {
        return None;
    }
    let end = line_end(script, at);
    Some(parse(&script[at..end]))
}

impl Cursor {
    fn at(script: &[u8], at: usize, lines: u64) -> Cursor
        ensures { result ≡ cursor_at script.now at lines }
    {
        Cursor {
            at,
            lines,
            next: next_at(script, at, lines),
        }
    }

    // Before the first line.
    pub fn new(script: &[u8]) -> Cursor
        ensures { result ≡ cursor_at script.now 0 0 }
    {
        Cursor::at(script, 0, 0)
    }

    // Past the line where it was answered.
    pub(crate) fn after(self, answered: bool, script: &[u8]) -> Cursor
        requires { self.lines < 1000001 }
        ensures { result ≡ cursor_after answered script.now self }
    {
        if answered {
            let end = line_end(script, self.at);
            Cursor::at(script, past(end, script.len()), self.lines + 1)
        } else {
            self
        }
    }
}
