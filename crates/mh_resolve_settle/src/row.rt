//! All cells of a state together: end-of-stream conflicts, and the default.
ghost use Rattle.std.specs.Prelude.{◌≡◌, ◌≢◌, ◌<◌, ◌↔◌, ℕ, length, IsTrue, IfOk, MatchOption};
ghost use Rattle.std.specs.List.{All};
ghost use Rattle.mh_resolve_cells.specs.code.CellRows.{AreCellsOfTallies, HasStreamConflictIn, IsDefaultChoice, IsDefaultIn, ActsOtherwise, HasReduction, FitsDefault};

use crate::cells::cell_of;
use mh_grammar::Memory;
use mh_resolve_cells::{Cell, Mode, Tally};
use mh_tables_core::Action;
use std::alloc::Global;

/// Returns the cells of the tokens. It fails only if there is no memory.
pub fn cells_of(
    alloc: Global,
    tallies: &[Tally],
    shifts: &[Option<u32>],
) -> Result<Vec<Cell>, Memory>
    requires { length shifts.now ≡ length tallies.now }
    ensures { IfOk result (λ cells. AreCellsOfTallies tallies.now shifts.now cells.items) }
{
    let mut cells = Vec::with_capacity(alloc, tallies.len())?;
    for token in 0..tallies.len() {
        cells.push(cell_of(tallies[token], shifts[token]))?;
    }
    Ok(cells)
}

fn is_same(left: Action, right: Action) -> bool
    ensures { IsTrue result ↔ (left ≡ right) }
{
    left == right
}

/// True if the cell has an action, and not that at the end of the stream.
fn acts_otherwise(cell: &Cell, last: Action) -> bool
    ensures { IsTrue result ↔ ActsOtherwise last cell.now }
{
    !is_same(cell.action, Action::Refuse) && !is_same(cell.action, last)
}

/// True if the end of the stream has an action and some token has another one.
pub fn is_stream_conflict(cells: &[Cell], last: Action) -> bool
    ensures { IsTrue result ↔ HasStreamConflictIn last cells.now }
{
    !is_same(last, Action::Refuse) && cells.iter().any(|cell| acts_otherwise(cell, last))
}

fn reduction_of(action: Action) -> Option<u32>
    ensures { MatchOption result ((p : ℕ) → action ≢ Action.Reduce p) (λ p. action ≡ Action.Reduce p) }
{
    match action {
        Action::Reduce(production) => Some(production),
        _ => None,
    }
}

/// The first reduction among the cells.
fn first_reduction(cells: &[Cell]) -> Option<u32>
    ensures { MatchOption result ((p : ℕ) → HasReduction cells.now p → ⊥) (HasReduction cells.now) }
{
    for cell in cells {
        if let Some(production) = reduction_of(cell.action) {
            return Some(production);
        }
    }
    None
}

/// True if the cell reduces this production, or has no raw action. False for a hole, which is a cell whose raw actions
/// were all dropped by precedence.
fn is_fit(cell: &Cell, production: u32) -> bool
    ensures { IsTrue result ↔ FitsDefault production cell.now }
{
    match cell.action {
        Action::Reduce(reduced) => reduced == production,
        Action::Shift(_) => false,
        Action::Refuse => !cell.raw,
    }
}

fn all_fit(cells: &[Cell], production: u32) -> bool
    ensures { IsTrue result ↔ All (FitsDefault production) cells.now }
{
    cells.iter().all(|cell| is_fit(cell, production))
}

/// The only production that a default may reduce.
fn only_choice(cells: &[Cell], kept: Action, mode: Mode) -> Option<u32>
    ensures { MatchOption result ((p : ℕ) → IsDefaultChoice kept mode cells.now p → ⊥) (IsDefaultChoice kept mode cells.now) }
{
    match (kept, mode) {
        (Action::Reduce(production), _) => Some(production),
        (Action::Refuse, Mode::Merged) => first_reduction(cells),
        _ => None,
    }
}

/// The production of the default, given the action that is kept at the end of the stream.
pub fn default_of(cells: &[Cell], kept: Action, mode: Mode) -> Option<u32>
    ensures { MatchOption result ((p : ℕ) → IsDefaultIn kept mode cells.now p → ⊥) (IsDefaultIn kept mode cells.now) }
{
    match only_choice(cells, kept, mode) {
        Some(production) if all_fit(cells, production) => Some(production),
        _ => None,
    }
}
