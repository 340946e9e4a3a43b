//! The top call with its status as an exit code.
ghost use Rattle.std.specs.Prelude.{◌≡◌, map, string_bytes};
ghost use Rattle.std.specs.Process.{exit_status};
ghost use Rattle.mh_top_claims.specs.MayAskForFiles.{MayAskForFiles};
ghost use Rattle.mh_top_claims.specs.Run.{world, Ran};

use crate::top::menhir;
use mh_outside::{Shelf, Sink, Source};
use std::alloc::Global;
use std::process::ExitCode;

/// Does the work that the words ask for, as `menhir` does, and gives the status as the exit code of a process. The
/// program calls this function over the real devices. Contracts do not know the bytes of real devices: `ran` holds
/// there for some contents of the files and some lines of the input, and says nothing about the bytes on out and err.
pub fn run<F: Shelf, I: Source, O: Sink, E: Sink>(
    alloc: Global,
    words: &[String],
    shelf: &mut F,
    input: &mut I,
    out: &mut O,
    err: &mut E,
) -> ExitCode
    requires asked { MayAskForFiles (map string_bytes words.now) (F.MayAsk shelf.old) }
    requires may_read { I.MayRead input.old }
    requires may_write { O.MayWrite out.old }
    requires may_warn { E.MayWrite err.old }
    ensures ran { Ran (map string_bytes words.now)
        (world F.files F.faults I.left I.faults O.written O.faults E.written E.faults
        shelf.old input.old out.old err.old)
        (world F.files F.faults I.left I.faults O.written O.faults E.written E.faults
        shelf.new input.new out.new err.new) (exit_status result) }
{
    ExitCode::from(menhir(alloc, words, shelf, input, out, err))
}
