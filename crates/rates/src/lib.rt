// The lengths of the waits: a rate set, and what ICCR1 chooses of it.
#![tactic(auto)]

ghost use Rattle.std.specs.Prelude.{◌≡◌, eqb, ◌&&◌, true};
ghost use Rattle.std.specs.List.{list_all};
ghost use Rattle.rates.specs.Rates.{default_rates, each, is_default, length_in, lengths_hold, monitor_below, monitor_halves, period_of, rate, rates_hold, setup_cycles, word_of};

// CKS is bits 3 to 0 of ICCR1; this is bit 3.
const CKS3: u8 = 8;

// Half counts of a half clock by CKS2 to CKS0, half counts until a rising clock is looked at by CKS3 and CKS2, and clocks before a
// slave releases SCL by CKS3.
#[derive(Clone, Copy, Debug, PartialEq, Eq)]
pub struct Rates {
    pub half_clocks: [u16; 8],
    pub monitors: [u16; 4],
    pub setups: [u16; 2],
}

// Four lengths as one word.
fn word(a: u16, b: u16, c: u16, d: u16) -> u64
    ensures { result ≡ word_of a b c d }
{
    (a as u64)
        + (b as u64) * 0x1_0000
        + (c as u64) * 0x1_0000_0000
        + (d as u64) * 0x1_0000_0000_0000
}

// Whether four lengths are four others, looked at as one word.
fn same_four(a: u16, b: u16, c: u16, d: u16, e: u16, f: u16, g: u16, h: u16) -> bool
    ensures { result ≡ (eqb a e && eqb b f && eqb c g && eqb d h) }
{
    word(a, b, c, d) == word(e, f, g, h)
}

// Whether a length is from low to 4096.
fn length_in(low: u16, n: u16) -> bool
    ensures { result ≡ length_in low n }
{
    (low <= n) & (n <= 4096)
}

// Whether each length is from low to 4096.
fn each_in(low: u16, lengths: &[u16]) -> bool
    ensures { result ≡ list_all (length_in low) lengths.now }
{
    lengths.iter().all(|n| length_in(low, *n))
}

impl Rates {
    // The numbers of document 01.
    pub fn default() -> Rates
        ensures { result ≡ default_rates }
    {
        Rates {
            half_clocks: [28, 40, 48, 64, 80, 100, 112, 128],
            monitors: [15, 39, 35, 83],
            setups: [10, 20],
        }
    }

    // Whether the set is that of document 01. Compared as words: with `self == Rates::default()`, fourteen tests one after the other, `hold` takes
    // more than twice as long, and each call on the peripheral asks for it.
    fn is_default(self) -> bool
        ensures { result ≡ is_default self }
    {
        let h = self.half_clocks;
        let m = self.monitors;
        let s = self.setups;
        let first = same_four(h[0], h[1], h[2], h[3], 28, 40, 48, 64);
        let last = same_four(h[4], h[5], h[6], h[7], 80, 100, 112, 128);
        let monitors = same_four(m[0], m[1], m[2], m[3], 15, 39, 35, 83);
        first & last & monitors & (s[0] == 10) & (s[1] == 20)
    }

    fn rate(self, control: u8) -> u16
        ensures { result ≡ rate self control }
    {
        let h = self.half_clocks;
        h[(control & 7) as usize]
    }

    // A half clock.
    pub fn period(self, control: u8) -> u32
        ensures { result ≡ period_of self control }
    {
        let n = self.rate(control) as u32;
        let slow = control & CKS3 != 0;
        if slow { 2 * n } else { n }
    }

    pub fn monitor_halves(self, control: u8) -> u16
        ensures { result ≡ monitor_halves self control }
    {
        let m = self.monitors;
        m[((control >> 2) & 3) as usize]
    }

    pub fn setup_cycles(self, control: u8) -> u16
        ensures { result ≡ setup_cycles self control }
    {
        let s = self.setups;
        s[((control >> 3) & 1) as usize]
    }

    // Whether each length is in its range.
    fn lengths_hold(self) -> bool
        ensures { result ≡ lengths_hold self }
    {
        each_in(15, &self.half_clocks) & each_in(15, &self.monitors) & each_in(1, &self.setups)
    }

    // Whether the monitor length of a group is below the half clock.
    fn monitor_below(self, control: u8) -> bool
        ensures { result ≡ monitor_below self control }
    {
        (self.monitor_halves(control) as u32) < self.period(control)
    }

    // Whether each length is in its range, and each monitor length below the half clock at the lowest values of CKS. It calls
    // itself: with `all`, or a `for`, over the sixteen values `hold` copies the set before it looks for the default, and takes twice as long.
    fn hold_below(self, values: u8) -> bool
        ensures { result ≡ (lengths_hold self && each (monitor_below self) values) }
    {
        if values == 0 {
            return self.lengths_hold();
        }
        let last = values - 1;
        if !self.hold_below(last) {
            return false;
        }
        self.monitor_below(last)
    }

    // Whether the set isn't refused.
    pub fn hold(self) -> bool
        ensures { result ≡ rates_hold self }
    {
        let same = self.is_default();
        if same {
            return true;
        }
        self.hold_below(16)
    }
}
