//! The reductions that lead to states.
ghost use Rattle.std.specs.Prelude.{◌≡◌, ◌<◌, ℕ, OnOk, IfOk, length, Some};
ghost use Rattle.std.specs.List.{Contains};
ghost use Rattle.mh_grammar.specs.Plain.{production_count};
ghost use Rattle.mh_tables_core.specs.Table.{edge_of};
ghost use Rattle.mh_facts.specs.code.ByLeftSide.{IsByLeftSide};
ghost use Rattle.mh_facts.specs.code.Queues.{ListGains};
ghost use Rattle.mh_reach_classes.specs.code.Reductions.{IsPathEndOrNone, IsReductionBy, IsReductionByAny, IsReductionOverEdge, IsReductionFrom, AreAllReductions};

use indexmap::IndexSet;
use mh_facts::{ByLeftSide, productions_of};
use mh_grammar::{Edge, Memory, Symbol, find_edge};
use mh_tables_core::Table;
use std::alloc::Global;

/// A reduction that leads to a state: the state that reduces, the production, and the target of the goto.
#[derive(Clone, Copy, PartialEq, Eq, Hash, Drop)]
pub struct Reduction {
    pub end: u32,
    pub production: u32,
    pub target: u32,
}

/// The state at the end of the path from a state along the right side of a production, if there is such a path.
fn end_of(table: &Table, from: u32, production: u32) -> Option<u32>
    requires from { from < length table.now.states }
    requires production { production < production_count table.now.grammar }
    ensures { IsPathEndOrNone table.now from production result }
{
    table.facts();
    let mut end = from;
    for place in 0..table.length_of(production) {
        match find_edge(table.edges(end), table.symbol_of(production, place)) {
            None => return None,
            Some(next) => end = next,
        }
    }
    Some(end)
}

/// Inserts a reduction.
fn note(past: &mut IndexSet<Reduction>, reduction: Reduction) -> Result<(), Memory>
    ensures { OnOk result (ListGains (λ r. r ≡ reduction) past.old.keys past.new.keys) }
{
    past.insert(reduction)?;
    Ok(())
}

/// Inserts the reduction by one production of a path from `from`, with the goto to `target`.
fn note_one(
    table: &Table,
    past: &mut IndexSet<Reduction>,
    from: u32,
    production: u32,
    target: u32,
) -> Result<(), Memory>
    requires from { from < length table.now.states }
    requires production { production < production_count table.now.grammar }
    ensures { OnOk result (ListGains (IsReductionBy table.now from target production) past.old.keys past.new.keys) }
{
    match end_of(table, from, production) {
        None => Ok(()),
        Some(end) => {
            let reduction = Reduction {
                end,
                production,
                target,
            };
            note(past, reduction)?;
            Ok(())
        }
    }
}

/// Inserts the reductions by the given productions.
fn note_each(
    table: &Table,
    past: &mut IndexSet<Reduction>,
    from: u32,
    productions: &[u32],
    target: u32,
) -> Result<(), Memory>
    requires from { from < length table.now.states }
    requires productions { (p : ℕ) → Contains productions.now p → p < production_count table.now.grammar }
    ensures { OnOk result (ListGains (IsReductionByAny table.now from target productions.now) past.old.keys past.new.keys) }
{
    for production in productions {
        note_one(table, past, from, *production, target)?;
    }
    Ok(())
}

/// Inserts the reductions whose goto is on the edge.
fn note_edge(
    table: &Table,
    past: &mut IndexSet<Reduction>,
    left: &ByLeftSide,
    from: u32,
    edge: Edge,
) -> Result<(), Memory>
    requires left { IsByLeftSide table.now left.now }
    requires from { from < length table.now.states }
    requires edge { edge_of table.now from edge.symbol ≡ Some edge.target }
    ensures { OnOk result (ListGains (IsReductionOverEdge table.now from edge) past.old.keys past.new.keys) }
{
    table.facts();
    match edge.symbol {
        Symbol::T(_) => Ok(()),
        Symbol::N(nonterminal) => {
            let productions = productions_of(left, nonterminal);
            note_each(table, past, from, productions, edge.target)?;
            Ok(())
        }
    }
}

/// Inserts the reductions whose goto is on an edge of the state.
fn note_in(
    table: &Table,
    past: &mut IndexSet<Reduction>,
    left: &ByLeftSide,
    from: u32,
) -> Result<(), Memory>
    requires left { IsByLeftSide table.now left.now }
    requires from { from < length table.now.states }
    ensures { OnOk result (ListGains (IsReductionFrom table.now from) past.old.keys past.new.keys) }
{
    table.facts();
    for edge in table.edges(from) {
        note_edge(table, past, left, from, *edge)?;
    }
    Ok(())
}

/// Returns all reductions that lead to states. Fails only if memory runs out.
pub fn reductions_to_states(
    alloc: Global,
    table: &Table,
    left: &ByLeftSide,
) -> Result<IndexSet<Reduction>, Memory>
    requires { IsByLeftSide table.now left.now }
    ensures { IfOk result (λ past. AreAllReductions table.now past.keys) }
{
    table.facts();
    let mut past = IndexSet::new(alloc);
    for from in 0..table.states() {
        note_in(table, &mut past, left, from)?;
    }
    Ok(past)
}
