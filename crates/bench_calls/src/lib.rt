// What a Rust program calls of the bench, for the comparison, over any clock set.
#![tactic(auto)]

ghost use Rattle.std.specs.Prelude.{length};
ghost use Rattle.bench.specs.Bench.{bench_of};
ghost use Rattle.bench_calls.specs.Over.{HandedBack};
ghost use Rattle.clock_calls.specs.Sets.{clocks_at};

use bench::play;
use calls::states::put_iic;
use clock_calls::sets::clocks_of;
use refusals::number_ended;

// A bench of so many peripherals over that clock set: 0 or the refusal; the bytes written and the script lines answered, and the states.
#[unsafe(no_mangle)]
pub extern "C" fn bench_over(
    count: usize,
    set: &[u64; 81],
    script: &[u8],
    out: &mut [u8],
    done: &mut [u64; 2],
    first: &mut [u64; 75],
    second: &mut [u64; 75],
    third: &mut [u64; 75],
    fourth: &mut [u64; 75],
) -> u64
    ensures { HandedBack (bench_of (clocks_at set.now) count script.now (length out.old)) result out.old out.new done.new first.new second.new third.new fourth.new }
{
    let ended = play(count, clocks_of(set), script, out);
    *done = [ended.written as u64, ended.lines];
    // One parameter for each state, and no slice of them: `bench_over`'s signature is the interface to C.
    let states = ended.states;
    put_iic(states[0], first);
    put_iic(states[1], second);
    put_iic(states[2], third);
    put_iic(states[3], fourth);
    number_ended(ended.ended) as u64
}
