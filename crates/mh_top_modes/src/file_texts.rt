//! The modes that write a text made from one messages file: its messages by their states (`--compile-errors`), its
//! sentences (`--echo-errors`), or the file with new comment lines (`--update-errors`).
ghost use Rattle.std.specs.Prelude.{◌≡◌, ◌≤◌};
ghost use Rattle.mh_top_plans.specs.Files.{IsNextFileOfJob};
ghost use Rattle.mh_top_plans.specs.code.Modes.{Opens, WritesFinal};
ghost use Rattle.mh_top_plans.specs.Plan.{IsPlanOfJob};
ghost use Rattle.mh_top_drive.specs.code.Prepared.{IsConsistent};
ghost use Rattle.mh_top_drive.specs.code.StageCalls.{StageShelfCounts};
ghost use Rattle.mh_top_modes.specs.FileTexts.{job_for};

use crate::updating::read_updated_file;
use mh_check::compiled_text;
use mh_msgfile::echo;
use mh_outside::Shelf;
use mh_top_drive::{Prepared, Stop};
use mh_top_plans::{FinalText, read_messages_file, read_spelled_file, written};
use std::alloc::Global;

/// The text that a mode makes from one messages file.
#[derive(Clone, Copy)]
pub enum FileText {
    /// `--compile-errors`: the messages of the file, by their states.
    Compiled,
    /// `--echo-errors`: the sentences of the file, one a line.
    Echoed,
    /// `--update-errors`: the file with new comment lines for its sentences, otherwise unchanged.
    Updated,
}

/// Reads the named messages file, and makes the text from it.
pub fn text_from_file<F: Shelf, const W: usize>(
    alloc: Global,
    prepared: &Prepared<W>,
    shelf: &mut F,
    kind: FileText,
    file: &[u8],
) -> Result<FinalText, Stop>
    requires few { W ≤ 8 }
    requires consistent { IsConsistent prepared.now }
    requires asked { F.MayAsk shelf.old file.now }
    ensures opens { Opens WritesFinal
        (IsPlanOfJob (job_for kind file.now) (F.files shelf.old) prepared.now)
        (IsNextFileOfJob (job_for kind file.now) (F.files shelf.old) prepared.now) result }
    ensures counts { StageShelfCounts (F.faults shelf.old) (F.faults shelf.new) result }
    ensures kept { F.files shelf.new ≡ F.files shelf.old }
{
    prepared.tabled.halting.table().facts();
    match kind {
        FileText::Compiled => match read_messages_file(alloc, prepared, shelf, file) {
            Ok(compiled) => Ok(written(compiled_text(alloc, &compiled)?)),
            Err(stop) => Err(stop),
        },
        FileText::Echoed => match read_spelled_file(alloc, prepared, shelf, file) {
            Ok(spelled) => Ok(written(echo(alloc, &prepared.grammar, &spelled)?)),
            Err(stop) => Err(stop),
        },
        FileText::Updated => match read_updated_file(alloc, prepared, shelf, file) {
            Ok(text) => Ok(FinalText::Written { text }),
            Err(stop) => Err(stop),
        },
    }
}
