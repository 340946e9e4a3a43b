//! What the search over rests finds words for.
use mh_facts::{FactKey, GotoFact};

/// What the search finds least words for: the rest of a path, or a goto fact. The key of a rest has the state in which
/// the rest begins, and the number of symbols before it; the first and the next token are those of the rest.
#[derive(Clone, Copy, Drop)]
pub enum Sought {
    Rest(FactKey),
    Goto(GotoFact),
}
