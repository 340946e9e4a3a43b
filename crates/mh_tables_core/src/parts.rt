//! The parts of a table.
use mh_grammar::{Edge, Sequence};

/// An action of a cell.
#[derive(Clone, Copy, Debug, PartialEq, Eq)]
pub enum Action {
    /// Shift the token and go to this state.
    Shift(u32),
    /// Reduce this production, which is not a start production.
    Reduce(u32),
    /// Refuse the token.
    Refuse,
}

/// The default of a state (`fallback` in the code): an action that does not ask for a token.
#[derive(Clone, Copy, Debug, PartialEq, Eq)]
pub enum Fallback {
    /// Accept.
    Accept,
    /// Reduce this production, which is not a start production.
    Reduce(u32),
}

/// A core item: a production and a dot in its right side, without lookaheads.
#[derive(Clone, Copy)]
pub struct Place {
    /// The number of the production, below the number of productions; start productions are first.
    pub production: u32,
    /// The number of symbols of the right side before the dot.
    pub dot: u32,
}

/// A state: its cells, one for each token; its default, if it has one; its edges in the order of their symbols; and its
/// core.
#[derive(Drop)]
pub struct StateParts {
    /// The cell of each token.
    pub cells: Sequence<Action>,
    /// The default, if the state has one.
    pub fallback: Option<Fallback>,
    /// The edges, in the order of their symbols.
    pub edges: Sequence<Edge>,
    pub core: Sequence<Place>,
}
