//! Compares the cells or the default actions of states with the right ones, and names the test that fails.
ghost use Rattle.std.specs.Prelude.{◌≡◌, ◌<◌, ◌≤◌, ◌↔◌, ◌∷◌, [], ℕ, IsTrue, length, slice_index_or};
ghost use Rattle.mh_tables_core.specs.Table.{no_state};
ghost use Rattle.mh_tabfile_form.specs.declared.types.RawCells.TheVariants as lines;
ghost use Rattle.mh_tabfile_form.specs.TableContent.{raw_cell, raw_row, raw_cells};
ghost use Rattle.mh_validate_valid.specs.Valid.{has_cell_lines, reason_of, raw_state};
ghost use Rattle.mh_validate_valid.specs.code.FirstCells.{AreFirstCells};
ghost use Rattle.mh_grammar.specs.Limits.{max_numbered};

use crate::reason::Reason;
use mh_grammar::{Grammar, Token, token_name};
use mh_tabfile_form::{RawCell, RawCells, RawTable};
use mh_tables_core::{Action, StateParts};

/// Returns true if the two actions are equal.
fn is_same(left: Action, right: Action) -> bool
    ensures { IsTrue result ↔ (left ≡ right) }
{
    left == right
}

fn is_cell(grammar: &Grammar, raw: &RawCell, token: Token, action: Action) -> bool
    requires { action ≡ Action.Refuse → ⊥ }
    ensures { IsTrue result ↔ (raw.now ∷ [] ≡ raw_cell grammar.now token action) }
{
    raw.token.as_slice() == token_name(grammar, token) && is_same(raw.action, action)
}

/// Returns true if the cell lines are exactly those of a row of cells.
fn are_cells(grammar: &Grammar, raws: &[RawCell], cells: &[Action]) -> bool
    requires { length cells.now ≤ max_numbered }
    ensures { IsTrue result ↔ (raws.now ≡ raw_row grammar.now 0 cells.now) }
{
    let mut next = 0usize;
    for token in 0..cells.len() {
        if is_same(cells[token], Action::Refuse) {
            continue;
        }
        if next >= raws.len() {
            return false;
        }
        if !is_cell(grammar, &raws[next], token as u16, cells[token]) {
            return false;
        }
        next += 1;
    }
    next == raws.len()
}

/// Returns true if the cells or the default action of a state are those of its parts of the table.
fn has_parts(grammar: &Grammar, raw: &RawCells, parts: &StateParts) -> bool
    requires { length parts.now.cells ≤ max_numbered }
    ensures { IsTrue result ↔ (raw.now ≡ raw_cells grammar.now parts.now) }
{
    match (raw, parts.fallback) {
        (RawCells::Cells(raws), None) => {
            are_cells(grammar, raws.as_slice(), parts.cells.as_slice())
        }
        (RawCells::Fallback(found), Some(due)) => *found == due,
        (RawCells::Cells(_), Some(_)) => false,
        (RawCells::Fallback(_), None) => false,
    }
}

/// Returns true if some cell shifts or reduces.
fn acts(grammar: &Grammar, cells: &[Action]) -> bool
    ensures { result ≡ has_cell_lines (lines.Cells (raw_row grammar.now 0 cells.now)) }
{
    // The argument `grammar` is not used at run time; only the contract mentions it.
    let _grammar = grammar;
    for cell in cells {
        if !is_same(*cell, Action::Refuse) {
            return true;
        }
    }
    false
}

fn are_due(grammar: &Grammar, parts: &StateParts) -> bool
    ensures { result ≡ has_cell_lines (raw_cells grammar.now parts.now) }
{
    match parts.fallback {
        None => acts(grammar, parts.cells.as_slice()),
        Some(_) => false,
    }
}

fn are_there(raw: &RawCells) -> bool
    ensures { result ≡ has_cell_lines raw.now }
{
    match raw {
        RawCells::Cells(raws) => !raws.is_empty(),
        RawCells::Fallback(_) => false,
    }
}

/// The test to report if the lines of a state are not those of its parts of the table.
pub fn wrong_lines(grammar: &Grammar, raw: &RawCells, parts: &StateParts) -> Reason
    ensures { result ≡ reason_of (raw_cells grammar.now parts.now) raw.now }
{
    if are_due(grammar, parts) {
        return Reason::Cell;
    }
    if are_there(raw) {
        Reason::Cell
    } else {
        Reason::Fallback
    }
}

/// The cells or the default action of a state of the file.
pub fn cells_at(raw: &RawTable, state: usize) -> &RawCells
    requires { state < length raw.now.states }
    ensures { result.now ≡ (raw_state raw.now state).cells }
{
    &raw.states[state].cells
}

/// The number of states before the first one whose cells or default action are not those of these parts.
pub fn count_right(grammar: &Grammar, raw: &RawTable, parts: &[StateParts]) -> usize
    requires states { length parts.now ≤ length raw.now.states }
    requires narrow { (s : ℕ) → s < length parts.now → length (slice_index_or parts.now s no_state).cells ≤ max_numbered }
    ensures { AreFirstCells grammar.now raw.now parts.now result }
{
    for state in 0..parts.len() {
        if !has_parts(grammar, cells_at(raw, state), &parts[state]) {
            return state;
        }
    }
    parts.len()
}
