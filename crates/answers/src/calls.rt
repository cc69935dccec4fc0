// A line's call on the peripheral.
ghost use Rattle.std.specs.Prelude.{◌≡◌, Option};
ghost use Rattle.answers.specs.Calls.{trace_clocks};
ghost use Rattle.answers.specs.Told.{Tells, told_by};
ghost use Rattle.answers.specs.Calls.{told, valued, moment_in, outcome_of, refused_by, called_of, answer_of};
ghost use Rattle.answers.specs.declared.Value.{Value};
ghost use Rattle.iic.specs.Calls.{advance_of, deadline_of, input_pins_of, read_of, set_gate_of, write_of};

use super::{Answer, Host, Outcome, Value, trace_clocks, trace_system};
use clocks::Clocks;
use iic::{Answered, Iic};
use lines::reading::parse;
use lines::{Call, Verb, may_follow};
use refusals::Refusal;
use time::Time;

// What a call of the peripheral answers, as the value of an answer line.
fn told<A, F: FnOnce(A) -> Option<Value>>(done: Answered<A>, value: F) -> Outcome
    requires { F.IsAlwaysCallable value }
    ensures { (f : A → Option Value) → ((a : A) (r : Option Value) → F.post value a r → r ≡ f a) → result ≡ told f done }
{
    Outcome {
        answer: done.answer.map(value),
        state: done.state,
    }
}

// What a call answered; the state becomes the one that it left.
fn left<A: Copy>(done: Answered<A>, state: &mut Iic) -> Result<A, Refusal>
    ensures { record { answer = result; state = state.new } ≡ done }
{
    *state = done.state;
    done.answer
}

// The calls of a trace change the state in place: an `Outcome` is of 264 bytes, and to clear more than 256 takes a call of `memset`. They are never inlined,
// since a function pays at its entry for all its locals, and so a line pays for its own call alone.

// A read, over the system clock alone, which is all that it looks at.
#[inline(never)]
fn read(address: u16, time: Time, state: &mut Iic) -> Result<u8, Refusal>
    ensures { record { answer = result; state = state.new } ≡ read_of state.old address time trace_clocks }
{
    left(state.read_over(address, time, trace_system()), state)
}

// A write, in the same way.
#[inline(never)]
fn written(address: u16, value: u8, time: Time, state: &mut Iic) -> Result<(), Refusal>
    ensures { record { answer = result; state = state.new } ≡ write_of state.old address value time trace_clocks }
{
    left(
        state.write_over(address, value, time, trace_system()),
        state,
    )
}

// The levels as given, in the same way.
#[inline(never)]
fn given(scl: bool, sda: bool, time: Time, state: &mut Iic) -> Result<bool, Refusal>
    ensures { record { answer = result; state = state.new } ≡ input_pins_of state.old scl sda time trace_clocks }
{
    left(state.input_pins_over(scl, sda, time, trace_system()), state)
}

// A change of the gate, over the whole set.
#[inline(never)]
fn gated(gate: bool, time: Time, state: &mut Iic) -> Result<(), Refusal>
    ensures { record { answer = result; state = state.new } ≡ set_gate_of state.old gate time trace_clocks }
{
    left(state.set_gate(gate, time, trace_clocks()), state)
}

// A visit, over the system clock alone where that is all that the state waits for.
#[inline(never)]
fn visited(time: Time, state: &mut Iic) -> Result<(), Refusal>
    ensures { record { answer = result; state = state.new } ≡ advance_of state.old time trace_clocks }
{
    let alone = state.waits_on_system();
    let done = if alone {
        state.advance_over(time, trace_system())
    } else {
        state.advance(time, trace_clocks())
    };
    left(done, state)
}

// A deadline, in the same way.
#[inline(never)]
fn deadline_of(state: Iic) -> Result<Option<Time>, Refusal>
    ensures { result ≡ deadline_of state trace_clocks }
{
    let alone = state.waits_on_system();
    if alone {
        state.deadline_over(trace_system())
    } else {
        state.deadline(trace_clocks())
    }
}

// The deadline as the value of an answer line.
fn of_deadline(deadline: Result<Option<Time>, Refusal>) -> Result<Option<Value>, Refusal>
    ensures { result ≡ valued moment_in deadline }
{
    deadline.map(|d| d.map(Value::Moment))
}

// The call on a state, over a trace's clocks.
#[inline(never)]
#[tactic(auto, unfolding(crate::specs::Calls::outcome_of))]
fn outcome(verb: Verb, time: Time, state: &mut Iic) -> Result<Option<Value>, Refusal>
    ensures { record { answer = result; state = state.new } ≡ outcome_of trace_clocks time state.old verb }
{
    match verb {
        Verb::Read(a) => read(a, time, state).map(|b| Some(Value::Byte(b))),
        Verb::Write(a, b) => written(a, b, time, state).map(|_| None),
        Verb::Pins(scl, sda) => given(scl, sda, time, state).map(|b| Some(Value::Bit(b))),
        Verb::Gate(gate) => gated(gate, time, state).map(|_| None),
        Verb::Visit => visited(time, state).map(|_| None),
        Verb::Deadline => of_deadline(deadline_of(*state)),
    }
}

// The same over any clocks. Not one function with `outcome`: a trace's calls hand no clock set on, so that a line takes less time.
#[tactic(auto, unfolding(crate::specs::Calls::outcome_of), using(crate::proofs::Tells::tells_as))]
pub fn outcome_in(clocks: Clocks, verb: Verb, time: Time, state: Iic) -> Outcome
    ensures outcome { result ≡ outcome_of clocks time state verb }
    ensures told { Tells (told_by clocks time state verb) result.answer }
{
    match verb {
        Verb::Read(a) => told(state.read(a, time, clocks), |b| Some(Value::Byte(b))),
        Verb::Write(a, b) => told(state.write(a, b, time, clocks), |_| None),
        Verb::Pins(scl, sda) => told(
            state.input_pins(scl, sda, time, clocks),
            |b| Some(Value::Bit(b)),
        ),
        Verb::Gate(gate) => told(state.set_gate(gate, time, clocks), |_| None),
        Verb::Visit => told(state.advance(time, clocks), |_| None),
        Verb::Deadline => Outcome {
            answer: of_deadline(state.deadline(clocks)),
            state,
        },
    }
}

impl Host {
    fn refused(self, refusal: Refusal) -> Answer
        ensures { result ≡ refused_by refusal self }
    {
        Answer {
            answer: Err(refusal),
            host: self,
        }
    }

    #[tactic(auto, unfolding(crate::specs::Calls::called_of))]
    fn called(mut self, call: Call) -> Answer
        ensures { result ≡ called_of trace_clocks self call }
    {
        let verb = call.verb;
        let time = call.time;
        if may_follow(self.last, time) {
            self.last = Some(time);
            let answer = outcome(verb, time, &mut self.state);
            Answer { answer, host: self }
        } else {
            self.refused(Refusal::NotLater)
        }
    }

    // The answer to a line.
    #[tactic(auto, unfolding(crate::specs::Calls::answer_of))]
    pub fn answer(self, line: &[u8]) -> Answer
        ensures { result ≡ answer_of trace_clocks self line.now }
    {
        match parse(line) {
            None => self.refused(Refusal::Malformed),
            Some(call) => self.called(call),
        }
    }
}
