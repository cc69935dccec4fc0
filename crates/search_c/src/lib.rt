// The search for the shortest run as a static library, for a Rust host.
// The names and signatures are those that C links and may not change, and a static library is a crate of its own: so each export stands here and in the
// library search.
#![tactic(auto)]

ghost use Rattle.std.specs.Prelude.{◌≡◌, true};
ghost use Rattle.lines.specs.Lines.{lines_in};
ghost use Rattle.search.specs.Shortest.{shortest_of, one_number};

// 65536 times the first line and the length of the shortest run of a trace that draws a refusal, or what refused the search.
#[unsafe(no_mangle)]
pub extern "C" fn shortest_run(trace: &[u8], number: u8, limit: u16) -> u64
    ensures { result ≡ one_number (shortest_of (lines_in true trace.now) number limit) }
{
    search::shortest_run(trace, number, limit)
}
