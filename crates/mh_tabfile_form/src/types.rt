//! The content of a table file. All symbols are given by name; productions and states are given by number.
use crate::names::Names;
use mh_grammar::{Name, Sequence};
use mh_resolve_cells::Mode;
use mh_tables_core::{Action, Fallback};

/// A production: the names of its left side and of the symbols of its right side.
#[derive(Drop)]
pub struct RawProduction {
    pub lhs: Name,
    pub rhs: Sequence<Name>,
}

/// A kernel item: the number of its production, the dot (0 is before the first symbol), and the names of its
/// lookaheads, `#` for the end of the stream.
#[derive(Drop)]
pub struct RawItem {
    pub production: u32,
    pub dot: u32,
    pub looks: Names,
}

/// An edge of the automaton: the name of its symbol and the number of its target state.
#[derive(Drop)]
pub struct RawEdge {
    pub symbol: Name,
    pub target: u32,
}

/// A cell of the table that shifts or reduces: the name of its token and the action.
#[derive(Drop)]
pub struct RawCell {
    pub token: Name,
    pub action: Action,
}

/// The actions of a state: its cells if it has no default action, else its default action.
#[derive(Drop)]
pub enum RawCells {
    Cells(Sequence<RawCell>),
    Fallback(Fallback),
}

/// A state: its kernel items, its edges, and its cells or its default action.
#[derive(Drop)]
pub struct RawState {
    pub items: Sequence<RawItem>,
    pub edges: Sequence<RawEdge>,
    pub cells: RawCells,
}

/// The content of a table file. Files of version 1 have no costs.
#[derive(Drop)]
pub struct RawTable {
    pub mode: Mode,
    pub tokens: Sequence<Name>,
    pub costs: Option<Sequence<u32>>,
    pub starts: Sequence<Name>,
    pub productions: Sequence<RawProduction>,
    pub states: Sequence<RawState>,
}
