// The peripheral's calls, with its state as words.
ghost use Rattle.std.specs.Prelude.{◌≡◌};
ghost use Rattle.calls.specs.States.{Begins, rates_at, register_words};
ghost use Rattle.clock_calls.specs.Told.{Told};
ghost use Rattle.iic.specs.State.{default_iic, with_rates_of};
ghost use Rattle.refusals.specs.Refusals.{number_ended};

use super::states::{byte_of, iic_of, put_iic, rates_of};
use clock_calls::first_time;
use clock_calls::put::{Words, put};
use clock_calls::sets::clocks_of;
use iic::{Answered, Iic};
use refusals::number_ended;

// The state before the first call.
pub fn fresh(state: &mut [u64; 75])
    ensures { Begins (register_words default_iic.registers) state.new }
{
    put_iic(Iic::new(), state)
}

// The state before the first call with the rate set that the words hold, and whether the set is refused.
#[tactic(auto, unfolding(iic::specs::State::initial))]
pub fn with_rates(state: &mut [u64; 75]) -> u64
    ensures refusal { result ≡ number_ended (with_rates_of (rates_at state.old)).answer }
    ensures registers { Begins (register_words default_iic.registers) state.new }
{
    let given = Iic::with_rates(rates_of(state));
    put_iic(given.state, state);
    number_ended(given.answer) as u64
}

// A call that can change the state. What it leaves of it is written back. Its number comes through `probe_iic_act` of the C interface.
pub fn act(
    number: u64,
    state: &mut [u64; 75],
    set: &[u64; 81],
    args: &[u64; 24],
    out: &mut [u64; 82],
) -> u64
    ensures { Told 10 result out.old out.new }
{
    match number {
        0 => read(state, set, args, out),
        1 => write(state, set, args, out),
        2 => input_pins(state, set, args, out),
        3 => set_gate(state, set, args, out),
        _ => advance(state, set, args, out),
    }
}

fn read(state: &mut [u64; 75], set: &[u64; 81], args: &[u64; 24], out: &mut [u64; 82]) -> u64
    ensures { Told 10 result out.old out.new }
{
    put_answered(
        iic_of(state).read(address_of(args[2]), first_time(args), clocks_of(set)),
        state,
        out,
    )
}

fn write(state: &mut [u64; 75], set: &[u64; 81], args: &[u64; 24], out: &mut [u64; 82]) -> u64
    ensures { Told 10 result out.old out.new }
{
    put_answered(
        iic_of(state).write(
            address_of(args[2]),
            byte_of(args[3]),
            first_time(args),
            clocks_of(set),
        ),
        state,
        out,
    )
}

fn input_pins(state: &mut [u64; 75], set: &[u64; 81], args: &[u64; 24], out: &mut [u64; 82]) -> u64
    ensures { Told 10 result out.old out.new }
{
    put_answered(
        iic_of(state).input_pins(args[2] != 0, args[3] != 0, first_time(args), clocks_of(set)),
        state,
        out,
    )
}

fn set_gate(state: &mut [u64; 75], set: &[u64; 81], args: &[u64; 24], out: &mut [u64; 82]) -> u64
    ensures { Told 10 result out.old out.new }
{
    put_answered(
        iic_of(state).set_gate(args[2] != 0, first_time(args), clocks_of(set)),
        state,
        out,
    )
}

fn advance(state: &mut [u64; 75], set: &[u64; 81], args: &[u64; 24], out: &mut [u64; 82]) -> u64
    ensures { Told 10 result out.old out.new }
{
    put_answered(
        iic_of(state).advance(first_time(args), clocks_of(set)),
        state,
        out,
    )
}

pub fn deadline(state: &[u64; 75], set: &[u64; 81], out: &mut [u64; 82]) -> u64
    ensures { Told 10 result out.old out.new }
{
    put(iic_of(state).deadline(clocks_of(set)), out)
}

pub fn validate(state: &[u64; 75], args: &[u64; 24], out: &mut [u64; 82]) -> u64
    ensures { Told 10 result out.old out.new }
{
    put(iic_of(state).validate(first_time(args)), out)
}

// What else can be asked without a clock: the eight registers, the lines, both interrupts.
pub fn observe(state: &[u64; 75], args: &[u64; 24], out: &mut [u64; 82]) -> u64
    ensures number { result ≡ 0 }
    ensures told { Told 14 result out.old out.new }
{
    let iic = iic_of(state);
    let address = args[2];
    let retained = byte_of(args[3]);
    match iic.pins() {
        None => put_shown(iic, address, retained, 0, 0, 0, out),
        Some(l) => put_shown(iic, address, retained, 1, l.scl as u64, l.sda as u64, out),
    }
}

fn address_of(n: u64) -> u16 {
    (n % 65536) as u16
}

// A register by `peek`, so many addresses on.
fn shown(iic: Iic, address: u64, on: u64) -> u64 {
    iic.peek(address_of(address.wrapping_add(on))) as u64
}

// The answer, and the state that the call left.
fn put_answered<A: Words>(done: Answered<A>, state: &mut [u64; 75], out: &mut [u64; 82]) -> u64
    ensures number { result ≡ number_ended done.answer }
    ensures told { Told 10 result out.old out.new }
{
    put_iic(done.state, state);
    put(done.answer, out)
}

// The registers, whether pins are driven and their levels, and the interrupts.
fn put_shown(
    iic: Iic,
    address: u64,
    retained: u8,
    driven: u64,
    scl: u64,
    sda: u64,
    out: &mut [u64; 82],
) -> u64
    ensures number { result ≡ 0 }
    ensures told { Told 14 result out.old out.new }
{
    out[0] = 0;
    out[1] = shown(iic, address, 0);
    out[2] = shown(iic, address, 1);
    out[3] = shown(iic, address, 2);
    out[4] = shown(iic, address, 3);
    out[5] = shown(iic, address, 4);
    out[6] = shown(iic, address, 5);
    out[7] = shown(iic, address, 6);
    out[8] = shown(iic, address, 7);
    out[9] = driven;
    out[10] = scl;
    out[11] = sda;
    out[12] = iic.interrupt() as u64;
    out[13] = iic.interrupt_with_enable(retained) as u64;
    0
}
