// What is due next: a condition, a frame, a clock, and the level that it shows.
ghost use Rattle.std.specs.Prelude.{◌≡◌};
ghost use Rattle.iic.specs.Ready.{clock_due, command_ready, frame_due, level_at, low_half_of, next_frame_of, ready, released_level, show_of};
ghost use Rattle.iic.specs.Settled.{at_rest, settled};

use super::Iic;
use frames::{Frame, Phase};
use registers::bits::{ACKBT, FS, MST, NACKF, TDRE, TRS};

impl Iic {
    pub(crate) fn ready(self) -> bool
        ensures { result ≡ ready self }
    {
        self.awake() & !self.flags.reset & !self.conditioned()
    }

    pub(crate) fn command_ready(self) -> bool
        ensures { result ≡ command_ready self }
    {
        self.commanded() & (!self.framed() | !self.lines.filtered.scl)
    }

    fn frame_due(self) -> bool
        ensures { result ≡ frame_due self }
    {
        let sync = self.registers.address & FS != 0;
        let master = self.registers.control & MST != 0;
        let transmit = self.registers.control & TRS != 0;
        let can_transmit = transmit
            & (master | self.flags.selected | sync)
            & !(self.registers.status & NACKF != 0);
        let can_receive = !transmit
            & ((master & self.flags.receive_enabled) | (!master & (self.flags.selected | sync)));
        !self.framed() & (self.flags.busy | sync) & (can_transmit | can_receive)
    }

    // A frame begins where one is due.
    #[tactic(auto, unfolding(crate::specs::Ready::next_frame_of))]
    pub(crate) fn next_frame(mut self) -> Iic
        ensures { result ≡ next_frame_of self }
    {
        if self.frame_due() {
            self = self.begin_frame(false);
        }
        self
    }

    // No frame is due, no byte for the frame, and no clock for it.
    fn at_rest(self) -> bool
        ensures { result ≡ at_rest self }
    {
        let rests = !self.frame_due();
        let clocks = self.clock_due();
        let Some(f) = self.frame else {
            return rests;
        };
        let empty = self.registers.status & TDRE != 0;
        let sync = self.registers.address & FS != 0;
        let starved = f.starved();
        rests & (!(starved & !empty) & (!clocks | (f.phase.is_done() | (starved & sync))))
    }

    // `kick` would start nothing.
    #[tactic(auto, unfolding(crate::specs::Settled::settled))]
    pub(crate) fn settled(self) -> bool
        ensures { result ≡ settled self }
    {
        let command = self.command_ready();
        !self.ready() | (!command & self.at_rest())
    }

    pub(crate) fn clock_due(self) -> bool
        ensures { result ≡ clock_due self }
    {
        self.master() & self.clock_wait.is_none() & !self.held() & !self.flags.synchronized_hold
    }

    pub(crate) fn level(self, f: Frame) -> bool
        ensures { result ≡ level_at f.phase f self }
    {
        if f.phase.is_data() {
            return f.data_level();
        }
        f.transmit | (self.registers.enable & ACKBT != 0)
    }

    // SCL goes low; SDA changes only while filtered SCL is low.
    #[tactic(auto, unfolding(crate::specs::Ready::low_half_of))]
    pub(crate) fn low_half(mut self, level: bool) -> Iic
        ensures { result ≡ low_half_of level self }
    {
        self.lines.drive.scl = false;
        if self.lines.filtered.scl {
            return self;
        }
        self.lines.drive.sda = level;
        self
    }

    fn released_level(self, f: Frame) -> bool
        ensures { result ≡ released_level f.phase f self }
    {
        match f.phase {
            Phase::Ack => self.registers.enable & ACKBT != 0,
            Phase::Data | Phase::Done => f.data_level(),
        }
    }

    #[tactic(auto, unfolding(crate::specs::Ready::show_of))]
    pub(crate) fn show(mut self) -> Iic
        ensures { result ≡ show_of self }
    {
        let Some(f) = self.frame else {
            return self;
        };
        self.lines.drive.sda = self.released_level(f);
        self
    }
}
