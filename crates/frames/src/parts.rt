// A frame: from its first bit to past the ninth clock.
ghost use Rattle.std.specs.Prelude.{◌≡◌, ◌-◌};
ghost use Rattle.frames.specs.Parts.{phased, filled, directed, yielded, sampled, marked, recounted, starved, data_level, bits_of, redirect_frame, redirect_in, yield_in, mark_in, recount_in, shown_count, is_done_in, progress_in, is_data, is_done};

use super::{Frame, Phase};

// Eight bits for an address or a count of 0.
pub fn bits_of(address: bool, count: u8) -> u8
    ensures { result ≡ bits_of address count }
{
    let whole = address | (count == 0);
    if whole { 8 } else { count }
}

fn fewer(n: u8) -> u8
    ensures { result ≡ n - 1 }
{
    n.saturating_sub(1)
}

impl Phase {
    // `==`, like `is_done` kept as a method since its contract says it in the definition that those of the shifter cite.
    pub fn is_data(self) -> bool
        ensures { result ≡ is_data self }
    {
        self == Phase::Data
    }

    pub fn is_done(self) -> bool
        ensures { result ≡ is_done self }
    {
        self == Phase::Done
    }
}

impl Frame {
    pub fn at(self, phase: Phase) -> Frame
        ensures { result ≡ phased phase self }
    {
        Frame { phase, ..self }
    }

    // The direction that ICCR1 has now.
    pub fn directed(mut self, transmit: bool, master: bool) -> Frame
        ensures { result ≡ directed transmit master self }
    {
        let sends = transmit & (master | !self.address);
        self.transmit = sends;
        self.loaded = self.loaded | !sends;
        self
    }

    pub fn filled(mut self, byte: u8) -> Frame
        ensures { result ≡ filled byte self }
    {
        self.shift = byte;
        self.loaded = true;
        self
    }

    pub(crate) fn yielded(mut self) -> Frame
        ensures { result ≡ yielded self }
    {
        self.transmit = false;
        self.loaded = true;
        self
    }

    // A bit was sampled, and arbitration may have been lost by it.
    pub fn sampled(mut self, lost: bool, sda: bool) -> Frame
        ensures { result ≡ sampled lost sda self }
    {
        self.transmit = self.transmit & !lost;
        self.shift = bus::shift_in(self.shift, sda);
        self.remaining = fewer(self.remaining);
        self
    }

    // Waits for its byte.
    pub fn starved(self) -> bool
        ensures { result ≡ starved self }
    {
        self.transmit & !self.loaded
    }

    // What the data phase shows on SDA.
    pub fn data_level(self) -> bool
        ensures { result ≡ data_level self }
    {
        !self.transmit | bus::first_bit(self.shift)
    }

    pub(crate) fn marked(mut self, last: bool) -> Frame
        ensures { result ≡ marked last self }
    {
        self.last = last;
        self
    }

    // MST or TRS was written.
    #[tactic(auto, unfolding(crate::specs::Parts::redirect_frame))]
    pub(crate) fn redirected(self, transmit: bool, master: bool, last: bool) -> Frame
        ensures { result ≡ redirect_frame transmit master last self }
    {
        let last = !transmit & last;
        self.directed(transmit, master).marked(last)
    }

    pub(crate) fn recounted(mut self, count: u8) -> Frame
        ensures { result ≡ recounted count self }
    {
        self.remaining = bits_of(false, count);
        self
    }
}

// After a lost arbitration.
pub fn yielded_in(frame: Option<Frame>) -> Option<Frame>
    ensures { result ≡ yield_in frame }
{
    frame.map(|f| f.yielded())
}

pub fn shown_count(frame: Option<Frame>, count: u8) -> u8
    ensures { result ≡ shown_count frame count }
{
    frame.map_or(count, |f| f.remaining & 7)
}

// The byte under way is the last where RCVD is set.
pub fn marked_in(frame: Option<Frame>, last: bool) -> Option<Frame>
    ensures { result ≡ mark_in frame last }
{
    frame.map(|f| {
        let kept = f.phase.is_done() | f.address;
        if kept { f } else { f.marked(last) }
    })
}

pub fn recounted_in(frame: Option<Frame>, count: u8) -> Option<Frame>
    ensures { result ≡ recount_in frame count }
{
    frame.map(|f| {
        let counts = f.phase.is_data() & !f.address;
        if counts { f.recounted(count) } else { f }
    })
}

// A frame's data phase follows MST and TRS while filtered SCL is low.
pub fn redirected_in(
    frame: Option<Frame>,
    transmit: bool,
    master: bool,
    last: bool,
    scl: bool,
) -> Option<Frame>
    ensures { result ≡ redirect_in frame transmit master last scl }
{
    frame.map(|f| {
        let open = f.phase.is_data() & !scl;
        if open {
            f.redirected(transmit, master, last)
        } else {
            f
        }
    })
}

pub fn is_done_in(frame: Option<Frame>) -> bool
    ensures { result ≡ is_done_in frame }
{
    frame.is_some_and(|f| f.phase.is_done())
}

pub fn progress_holds(frame: Option<Frame>) -> bool
    ensures { result ≡ progress_in frame }
{
    frame.is_none_or(|f| match f.phase {
        Phase::Data => (0 < f.remaining) & (f.remaining < 9),
        Phase::Ack | Phase::Done => f.remaining == 0,
    })
}
