// The bench as a static library, for a Rust host.
// The names and signatures are those that C links and may not change, and a static library is a crate of its own: so each export stands here and in the
// library bench.
#![tactic(auto)]

ghost use Rattle.std.specs.Prelude.{◌≡◌, length};
ghost use Rattle.answers.specs.Calls.{trace_clocks};
ghost use Rattle.bench.specs.Bench.{bench_of, over};

// A script's answer lines by so many peripherals, over the trace player's clock set: the bytes written.
#[unsafe(no_mangle)]
pub extern "C" fn bench_script(count: usize, script: &[u8], out: &mut [u8]) -> usize
    ensures { (result ≡ length (bench_of trace_clocks count script.now (length out.old)).bytes) × (out.new ≡ over (bench_of trace_clocks count script.now (length out.old)) out.old) }
{
    bench::bench_script(count, script, out)
}
