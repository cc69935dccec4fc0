// The bench over words as a static library, for the comparison.
// The names and signatures are those that C links and may not change, and a static library is a crate of its own: so each export stands here and in the
// library bench_calls.
#![tactic(auto)]

ghost use Rattle.std.specs.Prelude.{length};
ghost use Rattle.bench.specs.Bench.{bench_of};
ghost use Rattle.bench_calls.specs.Over.{HandedBack};
ghost use Rattle.clock_calls.specs.Sets.{clocks_at};

// A bench of so many peripherals over that clock set: 0 or the refusal; the bytes written and the script lines answered, and the states.
#[unsafe(no_mangle)]
pub extern "C" fn bench_over(
    count: usize,
    set: &[u64; 81],
    script: &[u8],
    out: &mut [u8],
    done: &mut [u64; 2],
    first: &mut [u64; 75],
    second: &mut [u64; 75],
    third: &mut [u64; 75],
    fourth: &mut [u64; 75],
) -> u64
    ensures { HandedBack (bench_of (clocks_at set.now) count script.now (length out.old)) result out.old out.new done.new first.new second.new third.new fourth.new }
{
    bench_calls::bench_over(count, set, script, out, done, first, second, third, fourth)
}
