//! Spots, which the second search reaches.
use mh_grammar::Token;

/// A spot: a state, and the representative of the next token there.
#[derive(Clone, Copy, PartialEq, Eq, Hash, Drop)]
pub struct StateAndNext {
    pub state: u32,
    pub next: Token,
}
