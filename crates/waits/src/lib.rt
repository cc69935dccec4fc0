// The waits of the peripheral: so many clocks of a tap or half clocks of the system clock, absent or present; when they
// end, pause and resume.
#![tactic(auto)]

pub mod ends;
pub mod half;

// A number of half clocks of the system clock: the half count at which the wait ends, or what is left of it while paused.
#[derive(Clone, Copy, Debug, PartialEq, Eq)]
pub struct HalfWait {
    pub count: u64,
    pub paused: bool,
}
