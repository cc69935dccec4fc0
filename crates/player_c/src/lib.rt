// The trace player as a static library, for a Rust host.
// The names and signatures are those that C links and may not change, and a static library is a crate of its own: so each export stands here and in the
// library player.
#![tactic(auto)]

ghost use Rattle.std.specs.Prelude.{◌≡◌, length};
ghost use Rattle.answers.specs.declared.Output.TheVariants.{Answers, Reports, Waves};
ghost use Rattle.player.specs.Trace.{run_of, over, summary_of};

// The answer lines of a whole trace: the bytes written. The three exports differ in the output alone: the C interface has a name for each.
#[unsafe(no_mangle)]
pub extern "C" fn play_trace(trace: &[u8], out: &mut [u8]) -> usize
    ensures { (result ≡ (summary_of (run_of Answers trace.now (length out.old))).written) × (out.new ≡ over (run_of Answers trace.now (length out.old)) out.old) }
{
    player::play_trace(trace, out)
}

// The reports of a whole trace, in the same way.
#[unsafe(no_mangle)]
pub extern "C" fn busy_trace(trace: &[u8], out: &mut [u8]) -> usize
    ensures { (result ≡ (summary_of (run_of Reports trace.now (length out.old))).written) × (out.new ≡ over (run_of Reports trace.now (length out.old)) out.old) }
{
    player::busy_trace(trace, out)
}

// The signals of a whole trace, in the same way: what stands behind the header of a VCD file.
#[unsafe(no_mangle)]
pub extern "C" fn wave_trace(trace: &[u8], out: &mut [u8]) -> usize
    ensures { (result ≡ (summary_of (run_of Waves trace.now (length out.old))).written) × (out.new ≡ over (run_of Waves trace.now (length out.old)) out.old) }
{
    player::wave_trace(trace, out)
}
