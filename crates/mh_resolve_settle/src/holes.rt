//! The holes of a state: cells with raw actions of which none remains.
ghost use Rattle.std.specs.Prelude.{◌≡◌, ◌≤◌, ◌<◌, ◌&&◌, length, is_some, IfOk};
ghost use Rattle.mh_grammar.specs.Plain.{plain_of, IsInRange};
ghost use Rattle.mh_items_kernels.specs.Automaton.{IsAutomaton};
ghost use Rattle.mh_resolve_cells.specs.declared.kinds.Mode.{Mode};
ghost use Rattle.mh_resolve_cells.specs.States.{state_of, IsTableOf};
ghost use Rattle.mh_resolve_cells.specs.Holes.{AreHoles};
ghost use Rattle.mh_resolve_cells.specs.code.CellRows.{refuses};

use crate::counting::shifts_of;
use mh_grammar::{Grammar, Memory, Token};
use mh_items_kernels::Automaton;
use mh_tables_core::{Action, Table};
use std::alloc::Global;

/// True if a cell is a hole: it refuses, but the state has an edge on the token. Without an edge some reduction would
/// remain.
fn is_hole(shift: Option<u32>, action: Action) -> bool
    ensures { result ≡ (is_some shift && refuses action) }
{
    shift.is_some() && matches!(action, Action::Refuse)
}

/// Returns for each token whether its cell in this state is a hole: it has raw actions, and precedence leaves none. The
/// table must be that of the automaton. It fails only if there is no memory.
pub fn holes_of<const W: usize>(
    alloc: Global,
    grammar: &Grammar,
    automaton: &Automaton<W>,
    table: &Table,
    state: u32,
) -> Result<Vec<bool>, Memory>
    requires few { W ≤ 8 }
    requires range { IsInRange (plain_of grammar.now) }
    requires automaton { IsAutomaton (plain_of grammar.now) automaton.now }
    requires table { (mode : Mode) × IsTableOf grammar.now automaton.now mode table.now }
    requires state { state < length automaton.now.kernels }
    ensures { IfOk result (λ holes. AreHoles (state_of grammar.now automaton.now state) holes.items) }
{
    let edges = automaton.edges[state as usize].as_slice();
    let shifts = shifts_of(alloc, grammar.tokens.len(), edges)?;
    let mut holes = Vec::with_capacity(alloc, shifts.len())?;
    for token in 0..shifts.len() {
        holes.push(is_hole(shifts[token], table.action(state, token as Token)))?;
    }
    Ok(holes)
}
