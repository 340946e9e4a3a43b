//! Adds the table to the order and its grammar. Nothing is written, and nothing of the input is read.
ghost use Rattle.std.specs.Prelude.{◌≡◌, ◌<◌, List, ℕ, length, IfOk, Some};
ghost use Rattle.mh_grammar.specs.Costs.{HaveCosts};
ghost use Rattle.mh_opts.specs.Orders.{IsWithinLimits};
ghost use Rattle.mh_top_drive.specs.code.Prepared.{IsConsistent};
ghost use Rattle.mh_top_prepare.specs.MayAskForTables.{MayAskForTables};
ghost use Rattle.mh_top_drive.specs.code.StageCalls.{FileStageGives, StageShelfCounts, StageGives};
ghost use Rattle.mh_top_prepare.specs.code.SourceFacts.{HasNumberedStates};
ghost use Rattle.mh_validate_valid.specs.Valid.{AreTokenNamesDistinct};
ghost use Rattle.mh_top_prepare.specs.PreparedStage.{IsPreparedFromSource, IsPreparedFromFiles};
ghost use Rattle.mh_items.specs.Fitting.{FitsSets};

use crate::sources::{AutomatonSource, source_of};
use crate::tabled::table_of;
use mh_outside::Shelf;
use mh_top_drive::{OrderAndGrammar, Prepared, PreparedWith, Stop};
use std::alloc::Global;

/// Gives the order with its grammar and its table, for an automaton from the given source. Here and in `prepare`,
/// `drop` frees the grammar at once, because freeing one field after the other at the end of the scope takes long to
/// prove.
fn prepare_from<const W: usize>(
    alloc: Global,
    front: OrderAndGrammar,
    source: &AutomatonSource,
) -> Result<Prepared<W>, Stop>
    requires fits { FitsSets W front.grammar }
    requires start { 0 < length front.grammar.starts }
    requires limits { IsWithinLimits front.order.job }
    requires costs { HaveCosts front.grammar.tokens }
    requires distinct_names { AreTokenNamesDistinct front.grammar }
    requires numbered { HasNumberedStates source.now }
    ensures prepared { StageGives (IsPreparedFromSource front source.now) result }
    ensures order { IfOk result (λ prepared. prepared.order ≡ front.order) }
    ensures grammar { IfOk result (λ prepared. prepared.grammar ≡ front.grammar) }
    ensures consistent { IfOk result (λ prepared. IsConsistent prepared) }
{
    match table_of(alloc, source, &front.grammar) {
        Ok(tabled) => Ok(PreparedWith {
            order: front.order,
            grammar: front.grammar,
            tabled,
        }),
        Err(stop) => {
            drop(front);
            Err(stop)
        }
    }
}

/// Gives the order with its grammar and its table. Reads the table file if the order names one.
pub fn prepare<F: Shelf, const W: usize>(
    alloc: Global,
    front: OrderAndGrammar,
    shelf: &mut F,
) -> Result<Prepared<W>, Stop>
    requires fits { FitsSets W front.grammar }
    requires start { 0 < length front.grammar.starts }
    requires limits { IsWithinLimits front.order.job }
    requires costs { HaveCosts front.grammar.tokens }
    requires distinct_names { AreTokenNamesDistinct front.grammar }
    requires asked { MayAskForTables front.order (F.MayAsk shelf.old) }
    ensures prepared { FileStageGives (IsPreparedFromFiles (F.files shelf.old) front) (λ name. front.order.tables ≡ Some name) result }
    ensures order { IfOk result (λ prepared. prepared.order ≡ front.order) }
    ensures grammar { IfOk result (λ prepared. prepared.grammar ≡ front.grammar) }
    ensures consistent { IfOk result (λ prepared. IsConsistent prepared) }
    ensures kept { F.files shelf.new ≡ F.files shelf.old }
    ensures may_ask { (other : List ℕ) → F.MayAsk shelf.old other → F.MayAsk shelf.new other }
    ensures counts { StageShelfCounts (F.faults shelf.old) (F.faults shelf.new) result }
{
    match source_of(alloc, shelf, &front.order) {
        Ok(source) => {
            let prepared = prepare_from(alloc, front, &source);
            drop(source);
            prepared
        }
        Err(stop) => {
            drop(front);
            Err(stop)
        }
    }
}
