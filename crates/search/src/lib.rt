// The shortest run of a trace's lines that still draws a refusal (document 02, (h) and (i)).
#![tactic(auto)]

ghost use Rattle.std.specs.Prelude.{◌≡◌, true, ◌+◌, ◌*◌, ◌≤◌, ◌<◌, IfSome, length};
ghost use Rattle.lines.specs.Lines.{lines_in};
ghost use Rattle.search.specs.Shortest.{Answers, refusal_of, shortest_of, one_number};
ghost use Rattle.search.specs.Search.{Met, Sought, kept_of, found_of};

use lines::each::Lines;
use player::Player;
use refusals::{Refusal, number_ended};
use std::fmt;

// A run of lines: its first line, from 1, and how many they are.
#[derive(Clone, Copy, Debug, PartialEq, Eq)]
pub struct Run {
    pub first: usize,
    pub length: usize,
}

// Why no run is found: there are more lines than the limit, or no run draws the number.
#[derive(Clone, Copy, Debug, PartialEq, Eq)]
pub enum Unfound {
    LongTrace,
    NotDrawn,
}

impl Unfound {
    pub fn refusal(self) -> Refusal
        ensures { result ≡ refusal_of self }
    {
        match self {
            Unfound::LongTrace => Refusal::LongTrace,
            Unfound::NotDrawn => Refusal::NotDrawn,
        }
    }
}

impl fmt::Display for Unfound {
    fn fmt<W: fmt::Write>(&self, f: &mut fmt::Formatter<W>) -> fmt::Result {
        f.write_str(match self {
            Unfound::LongTrace => "more lines than the limit",
            Unfound::NotDrawn => "no run draws the number",
        })
    }
}

// What a search found, and how many lines were played for it.
#[derive(Clone, Copy)]
pub struct Searched {
    pub found: Result<Run, Unfound>,
    pub plays: usize,
}

// How many lines were played, and how many of them up to one that draws the number.
#[derive(Clone, Copy)]
struct Play {
    lines: usize,
    drawn: Option<usize>,
}

// The best run so far: its first line, from 1; and the most lines that a better run has.
#[derive(Clone, Copy)]
struct Best {
    first: Option<usize>,
    most: usize,
}

// The best run of all, and how many lines were played.
#[derive(Clone, Copy)]
struct Tried {
    best: Best,
    plays: usize,
}

// How many lines a trace has.
fn count_lines(trace: &[u8]) -> usize
    ensures { result ≡ length (lines_in true trace.now) }
{
    Lines {
        rest: trace,
        ended: true,
    }
    .count()
}

// Plays lines until one draws the number, at most so many.
fn play_from(lines: Lines, number: u8, most: usize) -> Play
    ensures { Met (lines_in lines.entry.ended lines.entry.rest.now) number most result.drawn × (result.lines ≤ length (lines_in lines.entry.ended lines.entry.rest.now)) }
{
    let mut host = Player::new().host;
    let mut played = 0usize;
    for line in lines.take(most) {
        let answer = host.answer(line);
        played += 1;
        if number_ended(answer.answer) == number {
            return Play {
                lines: played,
                drawn: Some(played),
            };
        }
        host = answer.host;
    }
    Play {
        lines: played,
        drawn: None,
    }
}

impl Best {
    // After a further first line, from which so many lines draw the number.
    fn kept(self, first: usize, drawn: Option<usize>) -> Best
        requires { IfSome drawn (λ n. 0 < n) }
        ensures { result ≡ kept_of self first drawn }
    {
        match drawn {
            Some(drawn) => Best {
                first: Some(first),
                most: drawn - 1,
            },
            None => self,
        }
    }

    // Where every first line was tried.
    fn found(self) -> Result<Run, Unfound>
        requires { self.most ≤ 65535 }
        ensures { result ≡ found_of self }
    {
        let first = self.first.ok_or(Unfound::NotDrawn)?;
        Ok(Run {
            first,
            length: self.most + 1,
        })
    }
}

// The best run of a trace of so many lines.
fn best_run(trace: &[u8], number: u8, lines: usize) -> Tried
    requires { (lines ≡ length (lines_in true trace.now)) × (lines ≤ 65535) }
    ensures { Sought (lines_in true trace.now) number lines result.best.first result.best.most × (2 * result.plays ≤ lines * (lines + 1)) }
{
    let mut best = Best {
        first: None,
        most: lines,
    };
    let mut plays = 0usize;
    let mut left = Lines {
        rest: trace,
        ended: true,
    };
    for tried in 0..lines {
        let play = play_from(left, number, best.most);
        plays += play.lines;
        best = best.kept(tried + 1, play.drawn);
        left.next();
    }
    Tried { best, plays }
}

// The shortest run of lines that, played from the default, draws the number on its last line, and the earliest of these: the definition, what
// it means, and the most lines that are played for it.
pub fn shortest(trace: &[u8], number: u8, limit: u16) -> Searched
    ensures { (result.found ≡ shortest_of (lines_in true trace.now) number limit) × Answers (lines_in true trace.now) number limit result.found × (2 * result.plays ≤ limit * (limit + 1)) }
{
    let lines = count_lines(trace);
    if (limit as usize) < lines {
        return Searched {
            found: Err(Unfound::LongTrace),
            plays: 0,
        };
    }
    if number == 0 {
        return Searched {
            found: Err(Unfound::NotDrawn),
            plays: 0,
        };
    }
    let tried = best_run(trace, number, lines);
    let best = tried.best;
    Searched {
        found: best.found(),
        plays: tried.plays,
    }
}

// The same for a Rust host: 65536 times the first line and the length, or the refusal.
#[unsafe(no_mangle)]
pub extern "C" fn shortest_run(trace: &[u8], number: u8, limit: u16) -> u64
    ensures { result ≡ one_number (shortest_of (lines_in true trace.now) number limit) }
{
    match shortest(trace, number, limit).found {
        Ok(run) => run.first as u64 * 65536 + run.length as u64,
        Err(why) => why.refusal().number() as u64,
    }
}
