// Plays the trace on standard input and writes its answer lines to standard output as they come, or with the argument `busy` its reports, or with
// `wave` its signals as a VCD file, in two buffers of 64 KiB, whatever the length of the trace or of a line.
#![tactic(auto)]

ghost use Rattle.std.specs.Prelude.{◌≡◌, ◌-◌, ◌≤◌, IfOk, IfSome, length, min, take, drop};

use answers::Output;
use commands::exit_code;
use player::Player;
use std::io;
use std::io::Read;
use std::process::ExitCode;
use std::rt::Env;

const NAME: &str = "play";

// The bytes of a part that were played, and the player after them.
#[derive(Clone, Copy)]
struct Played {
    used: usize,
    player: Player,
}

// The bytes held of a line that was begun, and the player before it. The number stands apart from its buffer: the next read goes into the rest of the
// buffer.
#[derive(Clone, Copy)]
struct Begun {
    have: usize,
    player: Player,
}

// Plays what the output has room for and writes it. `rt`, `wanted` and `output` stay parameters here and below: a struct of them would hold a lent
// buffer, which each call has to lend on again.
fn play_some(
    rt: &impl Print,
    player: Player,
    wanted: Output,
    part: &[u8],
    ended: bool,
    output: &mut [u8],
) -> io::Result<Played>
    ensures { IfOk result (λ p. p.used ≤ length part.now) }
{
    let done = player.play_lines(wanted, part, ended, output);
    rt.write_all(&output[..done.written])?;
    Ok(Played {
        used: done.used,
        player: done.player,
    })
}

// Plays the whole lines of a part, the output emptied as often as it is full.
fn play_part(
    rt: &impl Print,
    player: Player,
    wanted: Output,
    part: &[u8],
    ended: bool,
    output: &mut [u8],
) -> io::Result<Played>
    ensures { IfOk result (λ p. p.used ≤ length part.now) }
{
    let mut used = 0usize;
    let mut last = player;
    // a `while`: how far a turn goes on is what the player used
    while used < part.len() {
        let more = play_some(rt, last, wanted, &part[used..], ended, output)?;
        used += more.used;
        last = more.player;
        if more.used == 0 {
            break;
        }
    }
    Ok(Played { used, player: last })
}

// The bytes of a line that was begun move to the front, at most 65 of them: more make it no more malformed.
fn keep(input: &mut [u8], from: usize, n: usize) -> usize
    requires { (from ≤ n) × (n ≤ length input.old) }
    ensures { (result ≡ min 65 (n - from)) × (take result input.new ≡ take result (drop from input.old)) }
{
    let m = (n - from).min(65);
    input.copy_within(from..from + m, 0);
    m
}

// One read, after the bytes that are held, and its lines; nothing where no more is to be read.
fn next_turn(
    rt: &(impl Print + Eprint),
    reader: &mut impl Read,
    begun: Begun,
    wanted: Output,
    input: &mut [u8],
    output: &mut [u8],
) -> io::Result<Option<Begun>>
    requires { begun.have ≤ length input.old }
    ensures { IfOk result (λ next. IfSome next (λ b. b.have ≤ 65)) }
{
    let have = begun.have;
    let Ok(got) = reader.read(&mut input[have..]) else {
        let _ = eprintln!(rt; "{NAME}: standard input can't be read");
        return Ok(None);
    };
    let n = have + got;
    let played = play_part(rt, begun.player, wanted, &input[..n], got == 0, output)?;
    let player = played.player;
    let have = keep(input, played.used, n);
    if (got == 0) | (1000000 <= player.lines) {
        return Ok(None);
    }
    Ok(Some(Begun { have, player }))
}

fn run(
    rt: &(impl Print + Eprint),
    reader: &mut impl Read,
    wanted: Output,
    input: &mut [u8],
    output: &mut [u8],
) -> io::Result<()>
    requires { 65 ≤ length input.old }
{
    let mut begun = Begun {
        have: 0,
        player: Player::new(),
    };
    for _ in 0..u64::MAX {
        let Some(next) = next_turn(rt, reader, begun, wanted, input, output)? else {
            break;
        };
        begun = next;
    }
    Ok(())
}

// By the first argument.
fn wanted(rt: &impl Env) -> Output {
    let mut word = [0u8; 5];
    let n = rt.arg(1, &mut word).unwrap_or(0);
    match &word[..n] {
        b"busy" => Output::Reports,
        b"wave" => Output::Waves,
        _ => Output::Answers,
    }
}

// What stands before the first line's text: of a VCD file the unit of time, and of each signal the byte that stands for it and its name.
fn begin(rt: &impl Print, wanted: Output) -> io::Result<()> {
    match wanted {
        Output::Answers | Output::Reports => Ok(()),
        Output::Waves => rt.write_all(
            b"$timescale 1 ns $end
$scope module iic $end
$var wire 1 ! SCL $end
$var wire 1 \" SDA $end
$var wire 1 # SCL_given $end
$var wire 1 $ SDA_given $end
$var wire 1 % SCL_driven $end
$var wire 1 & SDA_driven $end
$var wire 1 ' TDRE $end
$var wire 1 ( TEND $end
$var wire 1 ) RDRF $end
$var wire 1 * NACKF $end
$var wire 1 + STOP $end
$var wire 1 , AL $end
$var wire 1 - AAS $end
$var wire 1 . ADZ $end
$var wire 1 / gate $end
$upscope $end
$enddefinitions $end
",
        ),
    }
}

fn play(rt: &(impl Env + Input + Print + Eprint)) -> io::Result<()> {
    let wanted = wanted(rt);
    begin(rt, wanted)?;
    let mut reader = rt.reader();
    let mut input = [0u8; 65536];
    let mut output = [0u8; 65536];
    run(rt, &mut reader, wanted, &mut input, &mut output)
}

fn main(rt: HostRuntime) -> ExitCode {
    exit_code(&rt, NAME, play(&rt))
}
