// The peripheral's state of words, and back. `compare/words/src/iic.rs` says where what lies.
ghost use Rattle.std.specs.Prelude.{◌≡◌, ◌%◌, ◌≤◌};
ghost use Rattle.std.proofs.lemmas.List.Edits.{sets};
ghost use Rattle.calls.specs.States.{Begins, rates_at, register_words};

use bus::Levels;
use clock_calls::clock_waits::{half_by, wait_by};
use clock_calls::number_of;
use clocks::tap::Tap;
use clocks::wait::{ClockWait, WaitState};
use frames::{Frame, Phase};
use iic::{Condition, Flags, Hold, Iic, Lines};
use rates::Rates;
use registers::Registers;
use time::Time;
use waits::HalfWait;

pub(crate) fn byte_of(n: u64) -> u8 {
    (n % 256) as u8
}

fn registers_of(w: &[u64; 75]) -> Registers {
    Registers {
        control: byte_of(w[0]),
        mode: byte_of(w[1]),
        count: byte_of(w[2]),
        enable: byte_of(w[3]),
        status: byte_of(w[4]),
        seen: byte_of(w[5]),
        address: byte_of(w[6]),
        tdr: byte_of(w[7]),
        rdr: byte_of(w[8]),
    }
}

fn levels_of(scl: u64, sda: u64) -> Levels {
    Levels {
        scl: scl != 0,
        sda: sda != 0,
    }
}

fn lines_of(w: &[u64; 75]) -> Lines {
    Lines {
        drive: levels_of(w[12], w[13]),
        raw: levels_of(w[14], w[15]),
        latch: levels_of(w[16], w[17]),
        filtered: levels_of(w[18], w[19]),
    }
}

fn flags_of(w: &[u64; 75]) -> Flags {
    Flags {
        busy: w[9] != 0,
        reset: w[10] != 0,
        gate: w[11] != 0,
        synchronized_hold: w[38] != 0,
        selected: w[51] != 0,
        completed: w[52] != 0,
        receive_enabled: w[55] != 0,
        receive_stopped: w[56] != 0,
        stale_release: w[60] != 0,
    }
}

fn wait_of(w: &[u64; 75], at: usize) -> Option<ClockWait>
    requires { at ≤ 32 }
{
    wait_by(w[at], w[at + 1], w[at + 2], w[at + 3], w[at + 4], w[at + 5])
}

// No TryFrom in this file: a number that stands for no kind counts as the last.
fn condition_of(present: u64, number: u64) -> Condition {
    if present == 0 {
        return Condition::NoCondition;
    }
    match number {
        0 => Condition::StartRelease,
        1 => Condition::StartHigh,
        2 => Condition::StartHold,
        3 => Condition::StopLow,
        4 => Condition::StopHigh,
        5 => Condition::StopRelease,
        _ => Condition::StopDetect,
    }
}

fn command_of(present: u64, start: u64) -> Option<bool> {
    (present != 0).then_some(start != 0)
}

fn hold_of(present: u64, number: u64) -> Hold {
    if present == 0 {
        return Hold::NoHold;
    }
    if number == 0 {
        Hold::Transmit
    } else {
        Hold::Receive
    }
}

fn phase_of(number: u64) -> Phase {
    match number {
        0 => Phase::Data,
        1 => Phase::Ack,
        _ => Phase::Done,
    }
}

fn frame_of(w: &[u64; 75]) -> Option<Frame> {
    if w[43] == 0 {
        return None;
    }
    Some(Frame {
        shift: byte_of(w[44]),
        remaining: byte_of(w[45]),
        phase: phase_of(w[46]),
        address: w[47] != 0,
        transmit: w[48] != 0,
        loaded: w[49] != 0,
        last: w[50] != 0,
    })
}

fn fall_of(present: u64, seconds: u64, fraction: u64) -> Option<Time> {
    (present != 0).then_some(Time { seconds, fraction })
}

fn length_of(n: u64) -> u16
    ensures { result ≡ n % 65536 }
{
    (n % 0x1_0000) as u16
}

// The rate set that the words hold.
#[tactic(auto, unfolding(crate::specs::States::rates_at))]
pub(crate) fn rates_of(w: &[u64; 75]) -> Rates
    ensures { result ≡ rates_at w.now }
{
    Rates {
        half_clocks: [
            length_of(w[61]),
            length_of(w[62]),
            length_of(w[63]),
            length_of(w[64]),
            length_of(w[65]),
            length_of(w[66]),
            length_of(w[67]),
            length_of(w[68]),
        ],
        monitors: [
            length_of(w[69]),
            length_of(w[70]),
            length_of(w[71]),
            length_of(w[72]),
        ],
        setups: [length_of(w[73]), length_of(w[74])],
    }
}

pub(crate) fn iic_of(w: &[u64; 75]) -> Iic {
    Iic {
        registers: registers_of(w),
        lines: lines_of(w),
        flags: flags_of(w),
        frame: frame_of(w),
        condition: condition_of(w[39], w[40]),
        command: command_of(w[41], w[42]),
        hold: hold_of(w[53], w[54]),
        eighth_fall: fall_of(w[57], w[58], w[59]),
        clock_wait: half_by(w[26], w[27], w[28]),
        monitor_wait: half_by(w[29], w[30], w[31]),
        filter_wait: wait_of(w, 20),
        setup_wait: wait_of(w, 32),
        rates: rates_of(w),
    }
}

fn put_registers(r: Registers, w: &mut [u64; 75])
    ensures { w.new ≡ sets w.old 0 (register_words r) }
{
    w[0] = r.control as u64;
    w[1] = r.mode as u64;
    w[2] = r.count as u64;
    w[3] = r.enable as u64;
    w[4] = r.status as u64;
    w[5] = r.seen as u64;
    w[6] = r.address as u64;
    w[7] = r.tdr as u64;
    w[8] = r.rdr as u64;
}

fn put_levels(l: Levels, w: &mut [u64; 75], at: usize)
    requires { at ≤ 18 }
{
    w[at] = l.scl as u64;
    w[at + 1] = l.sda as u64;
}

fn put_lines(l: Lines, w: &mut [u64; 75]) {
    put_levels(l.drive, w, 12);
    put_levels(l.raw, w, 14);
    put_levels(l.latch, w, 16);
    put_levels(l.filtered, w, 18);
}

fn put_flags(f: Flags, w: &mut [u64; 75]) {
    w[9] = f.busy as u64;
    w[10] = f.reset as u64;
    w[11] = f.gate as u64;
    w[38] = f.synchronized_hold as u64;
    w[51] = f.selected as u64;
    w[52] = f.completed as u64;
    w[55] = f.receive_enabled as u64;
    w[56] = f.receive_stopped as u64;
    w[60] = f.stale_release as u64;
}

fn put_two(first: u64, second: u64, w: &mut [u64; 75], at: usize)
    requires { at ≤ 58 }
{
    w[at] = first;
    w[at + 1] = second;
}

fn put_three(first: u64, second: u64, third: u64, w: &mut [u64; 75], at: usize)
    requires { at ≤ 57 }
{
    w[at] = first;
    put_two(second, third, w, at + 1);
}

fn put_tap(tap: Tap, w: &mut [u64; 75], at: usize)
    requires { at ≤ 57 }
{
    put_three(1, number_of(tap.source), tap.divide as u64, w, at);
}

fn put_state(state: WaitState, w: &mut [u64; 75], at: usize)
    requires { at ≤ 57 }
{
    match state {
        WaitState::Running(target) => put_three(0, target, 0, w, at),
        WaitState::Paused(remaining) => put_three(1, remaining, 0, w, at),
        WaitState::Ready(t) => put_three(2, t.seconds, t.fraction, w, at),
    }
}

fn put_clock_wait(wait: ClockWait, w: &mut [u64; 75], at: usize)
    requires { at ≤ 32 }
{
    put_tap(wait.tap, w, at);
    put_state(wait.state, w, at + 3);
}

fn put_wait(wait: Option<ClockWait>, w: &mut [u64; 75], at: usize)
    requires { at ≤ 32 }
{
    match wait {
        None => {
            put_three(0, 0, 0, w, at);
            put_three(0, 0, 0, w, at + 3);
        }
        Some(wait) => put_clock_wait(wait, w, at),
    }
}

fn put_half(wait: Option<HalfWait>, w: &mut [u64; 75], at: usize)
    requires { at ≤ 29 }
{
    match wait {
        None => put_three(0, 0, 0, w, at),
        Some(half) => put_three(1, half.count, half.paused as u64, w, at),
    }
}

// A kind that may be none: whether there is one, and its number among the others.
fn put_kind(number: u64, w: &mut [u64; 75], at: usize)
    requires { at ≤ 58 }
{
    put_two(u64::from(number != 0), number.saturating_sub(1), w, at);
}

fn put_command(command: Option<bool>, w: &mut [u64; 75]) {
    match command {
        None => put_two(0, 0, w, 41),
        Some(start) => put_two(1, start as u64, w, 41),
    }
}

fn put_present(f: Frame, w: &mut [u64; 75]) {
    w[43] = 1;
    w[44] = f.shift as u64;
    w[45] = f.remaining as u64;
    w[46] = f.phase as u64;
    w[47] = f.address as u64;
    w[48] = f.transmit as u64;
    w[49] = f.loaded as u64;
    w[50] = f.last as u64;
}

fn put_absent(w: &mut [u64; 75]) {
    put_three(0, 0, 0, w, 43);
    put_three(0, 0, 0, w, 46);
    put_two(0, 0, w, 49);
}

fn put_frame(frame: Option<Frame>, w: &mut [u64; 75]) {
    match frame {
        None => put_absent(w),
        Some(f) => put_present(f, w),
    }
}

fn put_fall(fall: Option<Time>, w: &mut [u64; 75]) {
    match fall {
        None => put_three(0, 0, 0, w, 57),
        Some(t) => put_three(1, t.seconds, t.fraction, w, 57),
    }
}

fn put_lengths(lengths: &[u16], w: &mut [u64]) {
    for (word, length) in w.iter_mut().zip(lengths) {
        *word = u64::from(*length);
    }
}

fn put_rates(rates: Rates, w: &mut [u64; 75]) {
    put_lengths(&rates.half_clocks, &mut w[61..69]);
    put_lengths(&rates.monitors, &mut w[69..73]);
    put_lengths(&rates.setups, &mut w[73..75]);
}

fn put_waits(iic: Iic, w: &mut [u64; 75]) {
    put_wait(iic.filter_wait, w, 20);
    put_half(iic.clock_wait, w, 26);
    put_half(iic.monitor_wait, w, 29);
    put_wait(iic.setup_wait, w, 32);
}

pub fn put_iic(iic: Iic, w: &mut [u64; 75])
    ensures { Begins (register_words iic.registers) w.new }
{
    put_lines(iic.lines, w);
    put_flags(iic.flags, w);
    put_frame(iic.frame, w);
    put_kind(iic.condition as u64, w, 39);
    put_command(iic.command, w);
    put_kind(iic.hold as u64, w, 53);
    put_fall(iic.eighth_fall, w);
    put_waits(iic, w);
    put_rates(iic.rates, w);
    put_registers(iic.registers, w);
}
