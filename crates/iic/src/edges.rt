// What filtered levels bring: the edges of the clock, and a condition under way.
ghost use Rattle.std.specs.Prelude.{◌≡◌};
ghost use Rattle.iic.specs.Edges.{condition_step_of, edged, fall_at, fall_on, falling_of, filtered_edges_of, longer, scl_edge_of, stretch_ends_of};

use super::{Iic, Stepped};
use bus::Levels;
use domain::Domain;
use frames::{Frame, Phase};
use time::Time;

impl Iic {
    // ICMR's WAIT lengthens a master's wait by two clocks.
    fn longer(self) -> Stepped
        ensures { result ≡ longer self.clock_wait self }
    {
        let extra = 4 * (self.rates.period(self.registers.control) as u64);
        self.at_wait(self.clock_wait, |s, w| s.clock_from(w.longer(extra)))
    }

    #[tactic(auto, unfolding(crate::specs::Edges::fall_ack_of, crate::specs::Edges::insert_wait_of))]
    fn fall_at(self, f: Frame, now: Time) -> Stepped
        ensures { result ≡ fall_at f.phase f now self }
    {
        match f.phase {
            Phase::Data => self.load_transmit().fall_data().fine(),
            // The eighth fall.
            Phase::Ack => {
                let next = self.take_fall(f, now);
                if next.inserts_wait() {
                    next.longer()
                } else {
                    next.fine()
                }
            }
            Phase::Done => self.fine(),
        }
    }

    // A falling clock after what it started: SDA shows the next bit.
    #[tactic(auto, unfolding(crate::specs::Edges::fall_of))]
    fn fall(mut self, now: Time) -> Stepped
        ensures { result ≡ fall_on now self }
    {
        self = self.follow();
        match self.frame {
            Some(f) => self.fall_at(f, now),
            None => self.fall_idle().fine(),
        }
    }

    // The clock has fallen.
    #[tactic(auto, unfolding(crate::specs::Edges::falling_of))]
    fn falling(self, now: Time, system: Domain) -> Stepped
        ensures { result ≡ falling_of now system self }
    {
        if self.conditioned() {
            return self.fine();
        }
        if self.commanded() {
            return self.fine().kick(now, system);
        }
        self.end_frame()
            .fine()
            .kick(now, system)
            .and_then(|s| s.fall(now))
    }

    // SCL is high again: the wait that a stretched clock paused goes on.
    #[tactic(auto, unfolding(crate::specs::Edges::stretch_ends_of))]
    fn stretch_ends(mut self, now: Time, system: Domain) -> Stepped
        ensures { result ≡ stretch_ends_of now system self }
    {
        if self.flags.synchronized_hold & self.lines.filtered.scl {
            self.flags.synchronized_hold = false;
            return self.turn_clock(true, now, system);
        }
        self.fine()
    }

    // A condition under way goes on as the levels have risen.
    #[tactic(auto, unfolding(crate::specs::Edges::condition_step_of))]
    fn condition_step(self, now: Time, system: Domain) -> Stepped
        ensures { result ≡ condition_step_of now system self }
    {
        if self.condition_high() {
            return self.raise_condition().start_clock(now, system);
        }
        self.fine()
    }

    // The clock itself rises or falls.
    #[tactic(auto, unfolding(crate::specs::Edges::scl_edge_of))]
    fn scl_edge(self, was: bool, now: Time, system: Domain) -> Stepped
        ensures { result ≡ scl_edge_of was now system self }
    {
        if self.lines.filtered.scl == was {
            return self.fine();
        }
        if was {
            return self.falling(now, system);
        }
        self.rising(self.lines.filtered.sda).fine()
    }

    // Whether filtered levels bring anything: they have changed, a stretched clock ends, or a condition goes on.
    pub(crate) fn edged(self, old: Levels) -> bool
        ensures { result ≡ edged old self }
    {
        (old != self.lines.filtered)
            | (self.flags.synchronized_hold & self.lines.filtered.scl)
            | self.condition_high()
    }

    #[tactic(auto, unfolding(crate::specs::Edges::filtered_edges_of))]
    pub(crate) fn filtered_edges(mut self, old: Levels, now: Time, system: Domain) -> Stepped
        ensures { result ≡ filtered_edges_of old now system self }
    {
        self = self.bus_edge(old);
        if self.flags.reset {
            return self.fine();
        }
        self.stretch_ends(now, system)
            .and_then(|s| s.condition_step(now, system))
            .and_then(|s| s.scl_edge(old.scl, now, system))
    }
}
