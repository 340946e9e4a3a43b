//! Types for cells and their tallies.
use crate::kinds::ConflictKind;
use mh_tables_core::Action;

/// A cell: its action, whether it has any action before precedence is applied, and its conflict.
#[derive(Clone, Copy)]
pub struct Cell {
    /// The action that precedence chooses, or `Refuse`.
    pub action: Action,
    /// Whether the cell has an action (a shift or a reduction) before precedence is applied.
    pub raw: bool,
    /// The kind of its conflict, if it has one.
    pub kind: Option<ConflictKind>,
}

/// A tally of the reductions in a cell: the lowest production that wins its comparison, whether there is any reduction,
/// whether two win, whether all of them let the shift remain, and whether some comparison has no comparable levels.
#[derive(Clone, Copy)]
pub struct Tally {
    /// The lowest production that wins its comparison, if there is one.
    pub lowest: Option<u32>,
    /// Whether there is any reduction.
    pub some: bool,
    /// Whether two reductions win their comparisons.
    pub two: bool,
    /// Whether all comparisons let the shift remain.
    pub shifts: bool,
    /// Whether some comparison has no comparable levels.
    pub unknown: bool,
}

/// The tallies of the tokens and of the end of the stream.
#[derive(Drop)]
pub struct Tallies {
    /// The tally of each token.
    pub tokens: Vec<Tally>,
    /// The tally of the end of the stream.
    pub last: Tally,
}

/// Of the productions that `%on_error_reduce` lets a state reduce, the one with the lowest rank, and whether another of
/// them has the same rank.
#[derive(Clone, Copy)]
pub struct BestCandidate {
    pub rank: u64,
    /// The production of the candidate.
    pub production: u32,
    /// Whether a candidate of another production has the same rank.
    pub tied: bool,
}
