// How busy the bus is (document 02, requests (d) and (l)): in how many of the latest 64 lines of a trace a flag rose.
#![tactic(auto)]

ghost use Rattle.std.specs.Prelude.{◌≡◌, List};
ghost use Rattle.window.specs.Lines.{Line, rise_of, rises, latest};
ghost use Rattle.window.specs.Window.{empty_window, take_of, report_of, window_of};

// The latest 64 of the lines taken so far.
#[derive(Clone, Copy)]
pub struct Window {
    // A bit for each line, 1 where a flag rose: the last line's is the lowest, and where fewer were taken the rest are 0.
    pub bits: u64,
}

// 1 where some bit is 0 before and 1 after, else 0.
fn rise(before: u8, after: u8) -> u8
    ensures { result ≡ rise_of before after }
{
    let risen = after & !before;
    (risen != 0) as u8
}

impl Window {
    // No line was taken.
    pub fn empty() -> Window
        ensures { result ≡ empty_window }
    {
        Window { bits: 0 }
    }

    // One line more, by the status before and after it.
    pub fn take(self, before: u8, after: u8) -> Window
        ensures { result ≡ take_of self before after }
    {
        Window {
            bits: self.bits % 0x8000_0000_0000_0000 * 2 + rise(before, after) as u64,
        }
    }

    // In how many of the latest 64 lines a flag rose.
    pub fn report(self) -> u64
        ensures report { result ≡ report_of self }
        ensures counts { (lines : List Line) → self ≡ window_of lines → result ≡ rises (latest 64 lines) }
    {
        u64::count_ones(self.bits) as u64
    }
}
