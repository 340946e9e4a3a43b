//! Gives the source of the automaton of an order. A table file is read here; whether it is valid for the grammar is
//! tested later.
ghost use Rattle.std.specs.Prelude.{◌≡◌, Bool, List, ℕ, IfOk, Some};
ghost use Rattle.mh_top_drive.specs.code.StageCalls.{FileStageGives, StageShelfCounts};
ghost use Rattle.mh_top_prepare.specs.code.SourceFacts.{HasNumberedStates};
ghost use Rattle.mh_top_prepare.specs.AutomatonSources.{IsAutomatonSource, IsAutomatonSourceBy, source_to_build};
ghost use Rattle.mh_top_prepare.specs.MayAskForTables.{MayAskForTables};

use crate::table_file::TableFiles;
use mh_grammar::{Name, from_bytes};
use mh_opts::Order;
use mh_outside::Shelf;
use mh_tabfile_form::RawTable;
use mh_top_drive::{Stop, read_file};
use std::alloc::Global;

/// The source of the automaton of an order.
#[derive(Drop)]
pub enum AutomatonSource {
    /// The merged automaton of the grammar is built.
    Merged,
    /// The canonical automaton of the grammar is built.
    Canonical,
    /// The automaton is taken from the table file with this name and content.
    File { name: Name, raw: RawTable },
}

/// The source of an automaton that is built, canonical or merged.
fn built(canonical: bool) -> AutomatonSource
    ensures { result ≡ source_to_build canonical }
{
    if canonical {
        AutomatonSource::Canonical
    } else {
        AutomatonSource::Merged
    }
}

/// Reads the named table file, and gives it as a source.
fn file_source<F: Shelf>(alloc: Global, shelf: &mut F, name: &[u8]) -> Result<AutomatonSource, Stop>
    requires asked { F.MayAsk shelf.old name.now }
    ensures source { (canonical : Bool) → FileStageGives (IsAutomatonSourceBy (Some name.now) canonical (F.files shelf.old)) (λ other. other ≡ name.now) result }
    ensures numbered { IfOk result HasNumberedStates }
    ensures kept { F.files shelf.new ≡ F.files shelf.old }
    ensures may_ask { (other : List ℕ) → F.MayAsk shelf.old other → F.MayAsk shelf.new other }
    ensures counts { StageShelfCounts (F.faults shelf.old) (F.faults shelf.new) result }
{
    match read_file(alloc, shelf, &TableFiles, name) {
        Ok(raw) => Ok(AutomatonSource::File {
            name: from_bytes(alloc, name)?,
            raw,
        }),
        Err(stop) => Err(stop),
    }
}

/// Gives the source of the automaton of an order. Reads the table file if the order names one.
pub(crate) fn source_of<F: Shelf>(
    alloc: Global,
    shelf: &mut F,
    order: &Order,
) -> Result<AutomatonSource, Stop>
    requires asked { MayAskForTables order.now (F.MayAsk shelf.old) }
    ensures source { FileStageGives (IsAutomatonSource (F.files shelf.old) order.now) (λ name. order.now.tables ≡ Some name) result }
    ensures numbered { IfOk result HasNumberedStates }
    ensures kept { F.files shelf.new ≡ F.files shelf.old }
    ensures may_ask { (other : List ℕ) → F.MayAsk shelf.old other → F.MayAsk shelf.new other }
    ensures counts { StageShelfCounts (F.faults shelf.old) (F.faults shelf.new) result }
{
    match &order.tables {
        Some(name) => file_source(alloc, shelf, name.as_slice()),
        None => Ok(built(order.canonical)),
    }
}
