//! Modes of automata (merged, canonical), which are no modes of the program, and kinds of conflicts.

/// The kind of the automaton from which a table is made. In canonical mode a state has a default only if it has the
/// same action at the end of the stream.
#[derive(Clone, Copy, PartialEq, Eq)]
pub enum Mode {
    /// States are merged (Pager 1977).
    Merged,
    /// No states are merged (Knuth 1965).
    Canonical,
}

/// The kind of a conflict: solved, unsolved, or at the end of the stream.
#[derive(Clone, Copy, Debug, PartialEq, Eq)]
pub enum ConflictKind {
    /// Precedence levels decided it, for an action or for none.
    Solved,
    /// A level was missing or the levels were not comparable, or two reductions remained.
    Unsolved,
    /// The state has an action at the end of the stream and another action on a token; the first is dropped.
    Stream,
}
