//! Goto facts, which the first search finds and the second search uses.
use mh_grammar::Token;

/// A goto fact: the state and the nonterminal of a goto, the first token to come in the state, and the token to come in
/// the target of the goto. Both tokens represent their classes.
#[derive(Clone, Copy, PartialEq, Eq, Hash, Drop)]
pub struct GotoFact {
    pub from: u32,
    pub nonterminal: u16,
    pub first: Token,
    pub next: Token,
}
