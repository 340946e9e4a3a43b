//! The type of conflicts.
use crate::kinds::ConflictKind;
use mh_grammar::Look;

/// A conflict of a state, on a token or at the end of the stream.
#[derive(Clone, Copy, PartialEq, Eq)]
pub struct Conflict {
    /// The number of the state, below the number of states of the automaton.
    pub state: u32,
    /// The token on which the actions conflict, or the end of the stream.
    pub look: Look,
    /// The kind of the conflict.
    pub kind: ConflictKind,
}
