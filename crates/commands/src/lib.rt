// What the programs of the commands share: reading the input, whether an argument is there, and the exit status.
#![tactic(auto)]

ghost use Rattle.std.specs.Prelude.{◌≡◌, ◌≤◌, length, take};
ghost use Rattle.std.specs.Io.KnownBytes.{Consumes};
ghost use Rattle.std.specs.Process.{exit_status};
ghost use Rattle.commands.specs.Arguments.{given_of};
ghost use Rattle.commands.specs.Status.{status_of};

use std::env::FillError;
use std::io;
use std::io::{ErrorKind, Read};
use std::process::ExitCode;

// Reads until `buf` is full, the input ends or a read fails, and gives how many bytes it put at the start of `buf`.
pub fn read_full<R: Read>(reader: &mut R, buf: &mut [u8]) -> usize
    ensures within { result ≤ length buf.new }
    ensures bytes { Consumes (R.remaining reader.old) (R.remaining reader.new) (take result buf.new) }
{
    let mut done = 0usize;
    // A `while`: each read says how far it came.
    while done < buf.len() {
        match reader.read(&mut buf[done..]) {
            Ok(0) | Err(_) => break,
            Ok(n) => done += n,
        }
    }
    done
}

// Whether an argument is there, by what asking for it gave: one that is longer than the room it was given is.
pub fn is_given(asked: Result<usize, FillError>) -> bool
    ensures { result ≡ given_of asked }
{
    !matches!(asked, Err(FillError::NotPresent))
}

// The exit status of a program of that name, by whether all could be written: it says that standard output can't be written, or nothing where nobody reads
// on, and then the status is 141, as a shell tells of a program that a closed pipe ends.
#[tactic(auto, unfolding(crate::specs::Status::status_of))]
pub fn exit_code(rt: &impl Eprint, name: &str, done: io::Result<()>) -> ExitCode
    ensures { exit_status result ≡ status_of done }
{
    match done {
        Ok(()) => ExitCode::SUCCESS,
        Err(error) => match error.kind() {
            ErrorKind::BrokenPipe => ExitCode::from(141),
            _ => {
                let _ = eprintln!(rt; "{name}: standard output can't be written");
                ExitCode::SUCCESS
            }
        },
    }
}
