//! The table of an automaton, and its conflicts.
ghost use Rattle.std.specs.Prelude.{◌≡◌, ◌≤◌, ◌<◌, ◌↔◌, ℕ, [], length, IfOk, OnOk, Some};
ghost use Rattle.mh_grammar.specs.Costs.{HaveCosts};
ghost use Rattle.mh_grammar.specs.Plain.{plain_of};
ghost use Rattle.mh_grammar.specs.Edges.{IsRising, IsEdgeBefore};
ghost use Rattle.mh_items.specs.Fitting.{FitsSets};
ghost use Rattle.mh_items.specs.code.ClosureBuilder.{IsClosureBuilder};
ghost use Rattle.mh_items_kernels.specs.Kernels.{IsItemList};
ghost use Rattle.mh_items_kernels.specs.code.EmptyMarks.{HasCompleteItems};
ghost use Rattle.mh_items_kernels.specs.Automaton.{IsAutomaton};
ghost use Rattle.mh_tables_core.specs.Table.{table_data, state_at};
ghost use Rattle.mh_tables_core.specs.Facts.{Facts};
ghost use Rattle.mh_resolve_cells.specs.States.{state_of, closed_state, IsResolved, AreResolved, IsTableOf};
ghost use Rattle.mh_resolve_cells.specs.Conflicts.{AreConflicts};
ghost use Rattle.mh_items_kernels.specs.Conflicts.{AutomatonHasConflict, AutomatonHasAnyConflict};
ghost use Rattle.mh_resolve_cells.specs.NoConflicts.{HasNoConflicts, HasRawConflict, ActsSoundly, ActsCompletely};
ghost use Rattle.mh_resolve_cells.specs.code.StateResults.{IsCellRow, AreEdgesKnown};
ghost use Rattle.mh_resolve.specs.code.StateInput.{IsStateInput};

use crate::found::add_conflicts;
use crate::states::{CellRow, ListedState, parts_of, row_of};
use mh_grammar::{Edge, Grammar, Memory};
use mh_items::ClosureBuilder;
use mh_items_kernels::{Automaton, Kernel};
use mh_resolve_cells::{Conflict, Mode};
use mh_tables_core::{StateParts, Table, table_of};
use std::alloc::Global;

/// The states of a table, and the list of its conflicts.
#[derive(Drop)]
pub struct Resolution {
    /// The states of the table, by their numbers.
    pub states: Vec<StateParts>,
    /// The conflicts, in order.
    pub conflicts: Vec<Conflict>,
}

/// A state of the table, with the row from which it was made.
#[derive(Drop)]
struct Resolved {
    parts: StateParts,
    row: CellRow,
}

fn resolve_state<const W: usize>(
    alloc: Global,
    grammar: &Grammar,
    closer: &mut ClosureBuilder<W>,
    kernel: &Kernel<W>,
    edges: &[Edge],
    mode: Mode,
) -> Result<Resolved, Memory>
    requires fits { FitsSets W grammar.now }
    requires state { IsStateInput grammar.now closer.old kernel.now edges.now }
    ensures parts { IfOk result (λ r. IsResolved mode (closed_state grammar.now kernel.now edges.now) kernel.now r.parts) }
    ensures row { IfOk result (λ r. IsCellRow (closed_state grammar.now kernel.now edges.now) r.row.cells r.row.last r.row.stream) }
    ensures closer { IfOk result (λ _. IsClosureBuilder (plain_of grammar.now) closer.new) }
{
    if !closer.adds_complete(grammar, kernel) {
        let state = ListedState {
            kernel,
            closed: kernel,
            edges,
        };
        return resolve_listed(alloc, grammar, &state, mode);
    }
    let closed = closer.close(alloc, grammar, kernel)?;
    let state = ListedState {
        kernel,
        closed: &closed,
        edges,
    };
    resolve_listed(alloc, grammar, &state, mode)
}

/// Returns the table's state for one kernel and its edges. It fails only if there is no memory.
pub fn resolve_one<const W: usize>(
    alloc: Global,
    grammar: &Grammar,
    closer: &mut ClosureBuilder<W>,
    kernel: &Kernel<W>,
    edges: &[Edge],
    mode: Mode,
) -> Result<StateParts, Memory>
    requires fits { FitsSets W grammar.now }
    requires state { IsStateInput grammar.now closer.old kernel.now edges.now }
    ensures parts { IfOk result (IsResolved mode (closed_state grammar.now kernel.now edges.now) kernel.now) }
    ensures closer { IfOk result (λ _. IsClosureBuilder (plain_of grammar.now) closer.new) }
{
    let resolved = resolve_state(alloc, grammar, closer, kernel, edges, mode)?;
    Ok(resolved.parts)
}

/// Resolves a state, given a list with the complete items of its closure.
fn resolve_listed<const W: usize>(
    alloc: Global,
    grammar: &Grammar,
    state: &ListedState<'_, W>,
    mode: Mode,
) -> Result<Resolved, Memory>
    requires few { W ≤ 8 }
    requires closed { IsItemList (plain_of grammar.now) state.now.closed.now }
    requires exact { HasCompleteItems (plain_of grammar.now) state.now.kernel.now state.now.closed.now }
    requires rising { IsRising IsEdgeBefore state.now.edges.now }
    requires known { AreEdgesKnown (length grammar.now.tokens) state.now.edges.now }
    ensures parts { IfOk result (λ r. IsResolved mode (closed_state grammar.now state.now.kernel.now state.now.edges.now) state.now.kernel.now r.parts) }
    ensures row { IfOk result (λ r. IsCellRow (closed_state grammar.now state.now.kernel.now state.now.edges.now) r.row.cells r.row.last r.row.stream) }
{
    let row = row_of(alloc, grammar, state)?;
    let parts = parts_of(alloc, grammar, state, mode, &row)?;
    Ok(Resolved { parts, row })
}

/// Fills both lists, which must be empty.
fn all_states<const W: usize>(
    alloc: Global,
    grammar: &Grammar,
    automaton: &Automaton<W>,
    mode: Mode,
    found: &mut Resolution,
) -> Result<(), Memory>
    requires fits { FitsSets W grammar.now }
    requires costs { HaveCosts grammar.now.tokens }
    requires automaton { IsAutomaton (plain_of grammar.now) automaton.now }
    requires none { found.old.states.items ≡ [] }
    requires no_conflicts { found.old.conflicts.items ≡ [] }
    ensures states { OnOk result (AreResolved grammar.now automaton.now mode found.new.states.items) }
    ensures facts { OnOk result (Facts (table_data grammar.now found.new.states.items)) }
    ensures conflicts { OnOk result (AreConflicts grammar.now automaton.now found.new.conflicts.items) }
{
    let mut closer = ClosureBuilder::new(alloc, grammar)?;
    add_states(alloc, grammar, &mut closer, automaton, mode, found)
}

/// Fills both lists, state by state.
fn add_states<const W: usize>(
    alloc: Global,
    grammar: &Grammar,
    closer: &mut ClosureBuilder<W>,
    automaton: &Automaton<W>,
    mode: Mode,
    found: &mut Resolution,
) -> Result<(), Memory>
    requires fits { FitsSets W grammar.now }
    requires costs { HaveCosts grammar.now.tokens }
    requires automaton { IsAutomaton (plain_of grammar.now) automaton.now }
    requires closer { IsClosureBuilder (plain_of grammar.now) closer.old }
    requires none { found.old.states.items ≡ [] }
    requires no_conflicts { found.old.conflicts.items ≡ [] }
    ensures states { OnOk result (AreResolved grammar.now automaton.now mode found.new.states.items) }
    ensures facts { OnOk result (Facts (table_data grammar.now found.new.states.items)) }
    ensures conflicts { OnOk result (AreConflicts grammar.now automaton.now found.new.conflicts.items) }
{
    for state in 0..automaton.kernels.len() {
        let kernel = &automaton.kernels[state];
        let edges = automaton.edges[state].as_slice();
        let resolved = resolve_state(alloc, grammar, closer, kernel, edges, mode)?;
        add_conflicts(&mut found.conflicts, state as u32, &resolved.row)?;
        found.states.push(resolved.parts)?;
    }
    Ok(())
}

/// Returns the states of the table of an automaton and the list of its conflicts, as `resolve` does. It fails only if
/// there is no memory.
pub fn resolve_states<const W: usize>(
    alloc: Global,
    grammar: &Grammar,
    automaton: &Automaton<W>,
    mode: Mode,
) -> Result<Resolution, Memory>
    requires fits { FitsSets W grammar.now }
    requires costs { HaveCosts grammar.now.tokens }
    requires automaton { IsAutomaton (plain_of grammar.now) automaton.now }
    ensures states { IfOk result (λ r. AreResolved grammar.now automaton.now mode r.states.items) }
    ensures facts { IfOk result (λ r. Facts (table_data grammar.now r.states.items)) }
    ensures conflicts { IfOk result (λ r. AreConflicts grammar.now automaton.now r.conflicts.items) }
{
    let mut found = Resolution {
        states: Vec::with_capacity(alloc, automaton.kernels.len())?,
        conflicts: Vec::new(alloc),
    };
    all_states(alloc, grammar, automaton, mode, &mut found)?;
    Ok(found)
}

/// Returns the table of an automaton, with conflicts resolved by precedence, and the list of its conflicts: by state,
/// then by look with the end of the stream after the tokens; an end-of-stream conflict is the last of its state.
///
/// The rules are those of yacc's precedence (Johnson 1975) with the additions of the Menhir manual; what they leave
/// open is this project's own. It fails only if there is no memory.
pub fn resolve<const W: usize>(
    alloc: Global,
    grammar: &Grammar,
    automaton: &Automaton<W>,
    mode: Mode,
) -> Result<(Table, Vec<Conflict>), Memory>
    requires fits { FitsSets W grammar.now }
    requires costs { HaveCosts grammar.now.tokens }
    requires automaton { IsAutomaton (plain_of grammar.now) automaton.now }
    ensures table { IfOk result (λ r. IsTableOf grammar.now automaton.now mode r.0) }
    ensures conflicts { IfOk result (λ r. AreConflicts grammar.now automaton.now r.1.items) }
{
    let Resolution { states, conflicts } = resolve_states(alloc, grammar, automaton, mode)?;
    Ok((table_of(alloc, grammar, states)?, conflicts))
}

/// Law: an automaton has at most one table in each mode. The body is empty; only the contract matters.
pub fn table_is_unique<const W: usize>(
    grammar: &Grammar,
    automaton: &Automaton<W>,
    mode: Mode,
    left: &Table,
    right: &Table,
)
    requires left { IsTableOf grammar.now automaton.now mode left.now }
    requires right { IsTableOf grammar.now automaton.now mode right.now }
    ensures { left.now ≡ right.now }
{
    let _grammar = grammar;
    let _automaton = automaton;
    let _mode = mode;
    let _left = left;
    let _right = right;
}

/// Law: an automaton has at most one list of conflicts. The body is empty; only the contract matters.
pub fn conflicts_are_unique<const W: usize>(
    grammar: &Grammar,
    automaton: &Automaton<W>,
    left: &[Conflict],
    right: &[Conflict],
)
    requires left { AreConflicts grammar.now automaton.now left.now }
    requires right { AreConflicts grammar.now automaton.now right.now }
    ensures { left.now ≡ right.now }
{
    let _grammar = grammar;
    let _automaton = automaton;
    let _left = left;
    let _right = right;
}

/// Law: the list of conflicts is empty exactly if no state has a conflict. The body is empty; only the contract
/// matters.
pub fn conflicts_are_complete<const W: usize>(
    grammar: &Grammar,
    automaton: &Automaton<W>,
    conflicts: &[Conflict],
)
    requires { AreConflicts grammar.now automaton.now conflicts.now }
    ensures { (conflicts.now ≡ []) ↔ HasNoConflicts grammar.now automaton.now }
{
    let _grammar = grammar;
    let _automaton = automaton;
    let _conflicts = conflicts;
}

/// Law: the states of an automaton have conflicts exactly if the item sets of their kernels have. The body is empty;
/// only the contract matters.
pub fn conflicts_are_raw<const W: usize>(grammar: &Grammar, automaton: &Automaton<W>)
    requires { IsAutomaton (plain_of grammar.now) automaton.now }
    ensures none { HasNoConflicts grammar.now automaton.now ↔ (AutomatonHasAnyConflict (plain_of grammar.now) automaton.now → ⊥) }
    ensures raw { HasRawConflict grammar.now automaton.now ↔ AutomatonHasConflict (plain_of grammar.now) automaton.now }
{
    let _grammar = grammar;
    let _automaton = automaton;
}

/// Law: a table shifts along its automaton's edges and reduces complete productions; without conflicts it takes each
/// raw action. The body is empty; only the contract matters.
pub fn table_acts<const W: usize>(
    grammar: &Grammar,
    automaton: &Automaton<W>,
    mode: Mode,
    table: &Table,
)
    requires automaton { IsAutomaton (plain_of grammar.now) automaton.now }
    requires table { IsTableOf grammar.now automaton.now mode table.now }
    ensures within { (s : ℕ) → s < length automaton.now.kernels → ActsSoundly (state_of grammar.now automaton.now s) (state_at table.now s) }
    ensures clearly { HasNoConflicts grammar.now automaton.now → (s : ℕ) → s < length automaton.now.kernels → ActsCompletely (state_of grammar.now automaton.now s) (state_at table.now s) }
{
    let _grammar = grammar;
    let _automaton = automaton;
    let _mode = mode;
    let _table = table;
}
