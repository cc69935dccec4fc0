// The refusals of the repository, each with its number in the answers that are written or handed to C, and the order in which those of the
// peripheral's state are looked for. An answer that was not refused has the number 0.
#![tactic(auto)]

ghost use Rattle.std.specs.Prelude.{◌≡◌};
ghost use Rattle.refusals.specs.Refusals.{before_call, number_ended, number_of, of_state};

// Why a call was refused.
#[derive(Clone, Copy, Debug, PartialEq, Eq)]
pub enum Refusal {
    // 1: a clock of a zero frequency or denominator, or of a fraction that isn't below its numerator.
    ZeroFrequency,
    // 2: the divider 0 where edges are counted or a wait is started.
    ZeroDivider,
    // 3: a prescaler stage outside 1 to 13, or 1 to 8.
    NoStage,
    // 4: a malformed line.
    Malformed,
    // 5: a time earlier than that of the last line that wasn't refused 4 or 5.
    NotLater,
    // 6: fewer than 80 free bytes before a line.
    NoRoom,
    // 7: a count, an edge or a time past its width.
    Overflow,
    // 8: an edge or a time before the one that it is counted from.
    Reversed,
    // 9: a count above 7, mode bits outside c0 or, where a whole state is judged, an eighth fall later than now.
    Ranges,
    // 10: a frame in its data phase without 1 to 8 bits to go, or in another phase with any.
    Progress,
    // 11: a tap with the divider 0.
    ZeroTap,
    // 12: a half count within 1023 of the top.
    HalfCount,
    // 13: the sum of the present half count and of the wanted halves past 64 bits.
    HalfSum,
    // 14: a rate set that doesn't hold.
    Rates,
    // 15: a number of peripherals outside 1 to 4.
    Peripherals,
    // 16: a visit that would be the 65,537th.
    Visits,
    // 17: a trace of more lines than a search may look at.
    LongTrace,
    // 18: no run of lines draws the number that is looked for.
    NotDrawn,
    // 19: an address that lies in two lines of a map.
    Overlap,
    // 20: an address that lies in no line of a map.
    Gap,
}

impl Refusal {
    pub fn number(self) -> u8
        ensures { result ≡ number_of self }
    {
        match self {
            Refusal::ZeroFrequency => 1,
            Refusal::ZeroDivider => 2,
            Refusal::NoStage => 3,
            Refusal::Malformed => 4,
            Refusal::NotLater => 5,
            Refusal::NoRoom => 6,
            Refusal::Overflow => 7,
            Refusal::Reversed => 8,
            Refusal::Ranges => 9,
            Refusal::Progress => 10,
            Refusal::ZeroTap => 11,
            Refusal::HalfCount => 12,
            Refusal::HalfSum => 13,
            Refusal::Rates => 14,
            Refusal::Peripherals => 15,
            Refusal::Visits => 16,
            Refusal::LongTrace => 17,
            Refusal::NotDrawn => 18,
            Refusal::Overlap => 19,
            Refusal::Gap => 20,
        }
    }
}

// The number of the refusal that an answer is, 0 where it is none.
pub fn number_ended<A: Copy>(answer: Result<A, Refusal>) -> u8
    ensures { result ≡ number_ended answer }
{
    match answer {
        Ok(_) => 0,
        Err(refusal) => refusal.number(),
    }
}

// `Rates` where the rate set doesn't hold, then `Ranges`, then `Progress` for the progress of a frame, then the rest.
pub fn of_state(
    rates: bool,
    ranges: bool,
    progress: bool,
    rest: Result<(), Refusal>,
) -> Result<(), Refusal>
    ensures { result ≡ of_state rates ranges progress rest }
{
    if !rates {
        return Err(Refusal::Rates);
    }
    if !ranges {
        return Err(Refusal::Ranges);
    }
    if !progress {
        return Err(Refusal::Progress);
    }
    rest
}

// What stands before a call: `ZeroFrequency` where a clock of the set holds a zero, then the state's.
pub fn before_call(zero: bool, rates: bool, ranges: bool, progress: bool) -> Result<(), Refusal>
    ensures { result ≡ before_call zero rates ranges progress }
{
    if zero {
        return Err(Refusal::ZeroFrequency);
    }
    of_state(rates, ranges, progress, Ok(()))
}
