//! Brings a messages file up to date, for the mode of `--update-errors`: the file gets new comment lines for its
//! sentences, and is otherwise unchanged.
ghost use Rattle.std.specs.Prelude.{◌≡◌, ◌≤◌, length};
ghost use Rattle.mh_msgfile.specs.Messages.{AreSentencesOf};
ghost use Rattle.mh_top_plans.specs.MessagesFiles.{IsUpdatedFile, IsUpdatedOf};
ghost use Rattle.mh_top_drive.specs.code.Prepared.{IsConsistent};
ghost use Rattle.mh_top_drive.specs.code.StageCalls.{FileStageGives, StageShelfCounts, StageGives};

use mh_check::CheckFault;
use mh_grammar::Sequence;
use mh_msgfile::MsgFile;
use mh_outside::Shelf;
use mh_top_drive::{Prepared, Stop};
use mh_top_plans::{no_fit, read_spelled_file};
use mh_update::update;
use std::alloc::Global;

/// Gives the messages file with new comment lines for its sentences, as text, or its refusal.
fn updated_of<const W: usize>(
    alloc: Global,
    prepared: &Prepared<W>,
    name: &[u8],
    file: &MsgFile,
) -> Result<Sequence<u8>, Stop>
    requires few { W ≤ 8 }
    requires consistent { IsConsistent prepared.now }
    requires known { AreSentencesOf (length prepared.now.tabled.halting.grammar.starts) prepared.now.tabled.halting.grammar.tokens file.now }
    ensures { StageGives (IsUpdatedOf prepared.now name.now file.now) result }
{
    let tabled = &prepared.tabled;
    match update(
        alloc,
        &prepared.grammar,
        &tabled.automaton,
        &tabled.halting,
        file,
        prepared.order.comment_expected,
    ) {
        Ok(text) => Ok(Sequence::from_vec(text)),
        Err(CheckFault::Memory) => Err(Stop::OutOfMemory),
        Err(fault) => Err(no_fit(alloc, name, &fault)),
    }
}

/// Reads the named messages file, and brings it up to date.
pub(crate) fn read_updated_file<F: Shelf, const W: usize>(
    alloc: Global,
    prepared: &Prepared<W>,
    shelf: &mut F,
    name: &[u8],
) -> Result<Sequence<u8>, Stop>
    requires few { W ≤ 8 }
    requires consistent { IsConsistent prepared.now }
    requires asked { F.MayAsk shelf.old name.now }
    ensures updated { FileStageGives (IsUpdatedFile (F.files shelf.old) prepared.now name.now)
        (λ other. other ≡ name.now) result }
    ensures counts { StageShelfCounts (F.faults shelf.old) (F.faults shelf.new) result }
    ensures kept { F.files shelf.new ≡ F.files shelf.old }
{
    match read_spelled_file(alloc, prepared, shelf, name) {
        Ok(file) => updated_of(alloc, prepared, name, &file),
        Err(stop) => Err(stop),
    }
}
