// What a falling clock brings.
ghost use Rattle.std.specs.Prelude.{◌≡◌};
ghost use Rattle.iic.specs.Falls.{acknowledge_of, end_frame_of, fall_data_of, fall_idle_of, fall_taken_of, follow_of, hold_receive_of, inserts_wait};

use super::{Hold, Iic};
use frames::Frame;
use registers::bits::{ACKBT, FS, MST, RDRF, TRS, WAIT};
use time::Time;

impl Iic {
    // A frame that is through ends.
    #[tactic(auto, unfolding(crate::specs::Falls::end_frame_of))]
    pub(crate) fn end_frame(mut self) -> Iic
        ensures { result ≡ end_frame_of self }
    {
        let Some(f) = self.frame else {
            return self;
        };
        if f.phase.is_done() {
            self.flags.receive_enabled &= !f.last;
            self.flags.receive_stopped |= f.last;
            self.lines.drive.sda = true;
            self.frame = None;
        }
        self
    }

    // A frame's direction follows ICCR1.
    #[tactic(auto, unfolding(crate::specs::Falls::follow_of))]
    pub(crate) fn follow(mut self) -> Iic
        ensures { result ≡ follow_of self }
    {
        let Some(f) = self.frame else {
            return self;
        };
        if f.phase.is_data() {
            let transmit = self.registers.control & TRS != 0;
            let master = self.registers.control & MST != 0;
            self.frame = Some(f.directed(transmit, master));
        }
        self
    }

    #[tactic(auto, unfolding(crate::specs::Falls::fall_data_of, crate::specs::Falls::hold_transmit_of))]
    pub(crate) fn fall_data(mut self) -> Iic
        ensures { result ≡ fall_data_of self }
    {
        let Some(f) = self.frame else {
            return self;
        };
        if f.starved() {
            let stops = (self.registers.address & FS != 0) & (self.registers.control & MST != 0);
            if stops {
                self = self.unclocked();
            } else {
                self = self.set_hold(Hold::Transmit);
            }
        } else {
            self.lines.drive.sda = f.data_level();
        }
        self
    }

    // A receiver that is meant holds SCL while the byte before is still in ICDRR.
    #[tactic(auto, unfolding(crate::specs::Falls::hold_receive_of))]
    fn hold_receive(mut self, f: Frame) -> Iic
        ensures { result ≡ hold_receive_of f self }
    {
        let full = !f.transmit
            & (self.flags.selected | (self.registers.control & MST != 0))
            & (self.registers.status & RDRF != 0)
            & !self.flags.stale_release;
        if full {
            self = self.set_hold(Hold::Receive);
        }
        self
    }

    #[tactic(auto, unfolding(crate::specs::Falls::acknowledge_of))]
    fn acknowledge(mut self, f: Frame) -> Iic
        ensures { result ≡ acknowledge_of f self }
    {
        let level = f.transmit
            | (!self.flags.selected & !(self.registers.control & MST != 0))
            | (self.registers.enable & ACKBT != 0);
        self.flags.stale_release = false;
        self.lines.drive.sda = level;
        self
    }

    // The eighth fall.
    #[tactic(auto, unfolding(crate::specs::Falls::fall_taken_of))]
    pub(crate) fn take_fall(mut self, f: Frame, now: Time) -> Iic
        ensures { result ≡ fall_taken_of f now self }
    {
        self.eighth_fall = Some(now);
        self.hold_receive(f).acknowledge(f)
    }

    // ICMR's WAIT lengthens a master's wait.
    pub(crate) fn inserts_wait(self) -> bool
        ensures { result ≡ inserts_wait self }
    {
        self.master() & (self.registers.mode & WAIT != 0) & !self.held()
    }

    // A master without a frame keeps SCL low.
    #[tactic(auto, unfolding(crate::specs::Falls::fall_idle_of))]
    pub(crate) fn fall_idle(mut self) -> Iic
        ensures { result ≡ fall_idle_of self }
    {
        if self.master() {
            self.lines.drive.scl = false;
            self = self.unclocked();
        }
        self
    }
}
