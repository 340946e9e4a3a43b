//! The command line tool: `main` makes the real shelf, input and outputs, runs the top call over them, and ends with
//! its status.
#![tactic(auto)]

ghost use Rattle.std.specs.Process.{exit_status};
ghost use Rattle.mh_top_prepare.specs.code.LastLine.{WritesLastLine};

use mh_outside::{FileShelf, Sink, StdSink, StdSource, write_whole};
use mh_top::{run, status};
use std::env;
use std::io::ErrorKind;
use std::process::ExitCode;

const BAD_WORDS: &[u8] = b"menhir: usage: bad words\n";

const NO_MEMORY: &[u8] = b"menhir: out of memory\n";

/// The fault for which the words of the command line cannot be read.
#[derive(Clone, Copy)]
enum WordsFault {
    Unreadable,
    Memory,
}

/// The words of the command line, without the name of the program.
fn words(rt: &HostRuntime) -> Result<Vec<String>, WordsFault> {
    let mut words = Vec::new(rt.alloc());
    let mut args = match env::args(rt) {
        Ok(args) => args,
        Err(error) => {
            return Err(if error.kind() == ErrorKind::OutOfMemory {
                WordsFault::Memory
            } else {
                WordsFault::Unreadable
            });
        }
    };
    let _program = args.next();
    for word in args {
        if words.push(word).is_err() {
            return Err(WordsFault::Memory);
        }
    }
    Ok(words)
}

/// Writes the line for a fault before the work began, and gives the status, or that of a failed write.
fn refuse<E: Sink>(err: &mut E, line: &[u8], status: u8) -> ExitCode
    requires { E.MayWrite err.old }
    ensures { WritesLastLine status line.now (E.written err.old) (E.written err.new) (E.faults err.old)
        (E.faults err.new) (exit_status result) }
{
    match write_whole(err, line) {
        Ok(()) => ExitCode::from(status),
        Err(_) => ExitCode::from(status::WRITE_FAULT),
    }
}

/// Does the work that the words ask for, over the files and streams of the process.
fn work<E: Sink>(rt: &HostRuntime, words: &[String], err: &mut E) -> ExitCode
    requires { E.MayWrite err.old }
{
    let Ok(mut input) = StdSource::new(rt.alloc(), rt.stdin()) else {
        return refuse(err, NO_MEMORY, status::OUT_OF_MEMORY);
    };
    let mut shelf = FileShelf::new(rt);
    let mut out = StdSink::new(rt.stdout());
    run(rt.alloc(), words, &mut shelf, &mut input, &mut out, err)
}

fn main(rt: HostRuntime) -> ExitCode {
    let mut err = StdSink::new(rt.stderr());
    match words(&rt) {
        Ok(words) => work(&rt, &words, &mut err),
        Err(WordsFault::Unreadable) => refuse(&mut err, BAD_WORDS, status::MISUSED),
        Err(WordsFault::Memory) => refuse(&mut err, NO_MEMORY, status::OUT_OF_MEMORY),
    }
}
