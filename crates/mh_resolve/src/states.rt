//! The computation of a state of the table.
ghost use Rattle.std.specs.Prelude.{◌≡◌, ◌<◌, ◌≤◌, length, map, IfOk, []};
ghost use Rattle.std.specs.List.{All};
ghost use Rattle.mh_grammar.specs.Plain.{plain_of};
ghost use Rattle.mh_grammar.specs.Edges.{IsRising, IsEdgeBefore};
ghost use Rattle.mh_items_kernels.specs.Kernels.{IsItemList};
ghost use Rattle.mh_items_kernels.specs.code.EmptyMarks.{HasCompleteItems};
ghost use Rattle.mh_resolve_cells.specs.States.{closed_state, core_item_of, IsResolved};
ghost use Rattle.mh_resolve_cells.specs.code.CellRows.{state_of_items, HasSomeLook};
ghost use Rattle.mh_resolve_cells.specs.code.StateResults.{kept_of, IsFiller, filled_with, fallback_for, AreEdgesKnown, IsCellRow};

use mh_grammar::{Edge, Grammar, Memory, Sequence};
use mh_items_kernels::{Closure, Kernel, KernelItem};
use mh_resolve_cells::{Cell, Mode};
use mh_resolve_settle::{
    cell_of, cells_of, default_of, is_stream_conflict, on_error_production, shifts_of, tallies_of,
};
use mh_tables_core::{Action, Fallback, Place, StateParts};
use std::alloc::Global;

/// The input of the resolution of a state: its kernel, a list with the complete items of its closure, and its edges.
#[derive(Clone, Copy)]
pub(crate) struct ListedState<'a, const W: usize> {
    pub kernel: &'a Kernel<W>,
    /// A list with the complete items of the closure.
    pub closed: &'a Closure<W>,
    /// The edges, in the order of their symbols.
    pub edges: &'a [Edge],
}

/// The cells of a state: those of the tokens, that of the end of the stream, and whether there is an end-of-stream
/// conflict.
#[derive(Drop)]
pub(crate) struct CellRow {
    /// The cell of each token.
    pub cells: Sequence<Cell>,
    /// The cell of the end of the stream.
    pub last: Cell,
    /// Whether there is an end-of-stream conflict.
    pub stream: bool,
}

/// The action at the end of the stream, which an end-of-stream conflict drops.
fn kept_action(stream: bool, last: Action) -> Action
    ensures { result ≡ kept_of stream last }
{
    if stream { Action::Refuse } else { last }
}

/// The production that fills the cells without raw actions, if there is one; there is none if the state has a default.
fn filler_of<const W: usize>(
    grammar: &Grammar,
    items: &[KernelItem<W>],
    default: Option<u32>,
) -> Option<u32>
    requires few { W ≤ 8 }
    requires items { All HasSomeLook items.now }
    ensures { IsFiller (state_of_items grammar.now items.now []) default result }
{
    match default {
        Some(_) => None,
        None => on_error_production(grammar, items),
    }
}

/// The action of a cell after filling: a cell without raw actions reduces the filling production, or refuses if there
/// is none.
fn action_of(cell: &Cell, filler: Option<u32>) -> Action
    ensures { result ≡ filled_with filler cell.now }
{
    if cell.raw {
        return cell.action;
    }
    match filler {
        Some(production) => Action::Reduce(production),
        None => Action::Refuse,
    }
}

fn actions_of(alloc: Global, cells: &[Cell], filler: Option<u32>) -> Result<Vec<Action>, Memory>
    ensures { IfOk result (λ actions. actions.items ≡ map (filled_with filler) cells.now) }
{
    let mut actions = Vec::with_capacity(alloc, cells.len())?;
    for cell in cells {
        actions.push(action_of(cell, filler))?;
    }
    Ok(actions)
}

fn place<const W: usize>(item: &KernelItem<W>) -> Place
    ensures { result ≡ core_item_of item.now }
{
    Place {
        production: item.production,
        dot: item.dot,
    }
}

fn core_of<const W: usize>(alloc: Global, items: &[KernelItem<W>]) -> Result<Vec<Place>, Memory>
    requires few { W ≤ 8 }
    ensures { IfOk result (λ core. core.items ≡ map core_item_of items.now) }
{
    let mut core = Vec::with_capacity(alloc, items.len())?;
    for item in items {
        core.push(place(item))?;
    }
    Ok(core)
}

/// The default of a state: the reduction of a start production is acceptance.
pub(crate) fn fallback_of(grammar: &Grammar, default: Option<u32>) -> Option<Fallback>
    ensures { result ≡ fallback_for (length grammar.now.starts) default }
{
    match default {
        None => None,
        Some(production) => {
            if (production as usize) < grammar.starts.len() {
                Some(Fallback::Accept)
            } else {
                Some(Fallback::Reduce(production))
            }
        }
    }
}

/// Computes the cells of a state.
pub(crate) fn row_of<const W: usize>(
    alloc: Global,
    grammar: &Grammar,
    state: &ListedState<'_, W>,
) -> Result<CellRow, Memory>
    requires few { W ≤ 8 }
    requires kernel { IsItemList (plain_of grammar.now) state.now.closed.now }
    requires exact { HasCompleteItems (plain_of grammar.now) state.now.kernel.now state.now.closed.now }
    requires rising { IsRising IsEdgeBefore state.now.edges.now }
    requires known { AreEdgesKnown (length grammar.now.tokens) state.now.edges.now }
    ensures { IfOk result (λ row. IsCellRow (closed_state grammar.now state.now.kernel.now state.now.edges.now) row.cells row.last row.stream) }
{
    let items = state.closed.items.as_slice();
    let shifts = shifts_of(alloc, grammar.tokens.len(), state.edges)?;
    let tallies = tallies_of(alloc, grammar, items, shifts.as_slice())?;
    let cells = cells_of(alloc, tallies.tokens.as_slice(), shifts.as_slice())?;
    let last = cell_of(tallies.last, None);
    let stream = is_stream_conflict(cells.as_slice(), last.action);
    Ok(CellRow {
        cells: Sequence::from_vec(cells),
        last,
        stream,
    })
}

/// Computes a state of the table from its cells.
pub(crate) fn parts_of<const W: usize>(
    alloc: Global,
    grammar: &Grammar,
    state: &ListedState<'_, W>,
    mode: Mode,
    row: &CellRow,
) -> Result<StateParts, Memory>
    requires few { W ≤ 8 }
    requires closed { IsItemList (plain_of grammar.now) state.now.closed.now }
    requires exact { HasCompleteItems (plain_of grammar.now) state.now.kernel.now state.now.closed.now }
    requires row { IsCellRow (closed_state grammar.now state.now.kernel.now state.now.edges.now) row.now.cells row.now.last row.now.stream }
    ensures { IfOk result (IsResolved mode (closed_state grammar.now state.now.kernel.now state.now.edges.now) state.now.kernel.now) }
{
    let cells = row.cells.as_slice();
    let kept = kept_action(row.stream, row.last.action);
    let default = default_of(cells, kept, mode);
    let filler = filler_of(grammar, state.closed.items.as_slice(), default);
    let actions = actions_of(alloc, cells, filler)?;
    let core = core_of(alloc, state.kernel.items.as_slice())?;
    let copies = Vec::from_slice(alloc, state.edges)?;
    Ok(StateParts {
        cells: Sequence::from_vec(actions),
        fallback: fallback_of(grammar, default),
        edges: Sequence::from_vec(copies),
        core: Sequence::from_vec(core),
    })
}
