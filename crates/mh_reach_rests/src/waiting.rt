//! The working data of the search over rests, apart from the settled words. A word is settled when it is taken from the
//! queue, and is then the least one for what it is sought for.
use crate::sought::Sought;
use mh_facts::queue::Queue;
use mh_facts::{FactKey, GotoFact};

/// What a word is made of.
#[derive(Clone, Copy, Drop)]
pub enum Origin {
    /// Nothing: the rest is empty.
    Ended,
    /// The token before a rest, which is shifted, and the word of this rest.
    Shifted(FactKey),
    /// The word of a goto fact and the word of the rest after it.
    Joined { goto: GotoFact, rest: FactKey },
}

/// A word that waits in the queue: what it is sought for; the state at the end of the rest, or the target of the goto;
/// and what it is made of.
#[derive(Clone, Copy, Drop)]
pub struct WaitingWord {
    pub sought: Sought,
    pub end: u32,
    pub origin: Origin,
}

/// A settled rest: its key, the state at its end, and the cost of its word.
#[derive(Clone, Copy, Drop)]
pub struct SettledRest {
    pub key: FactKey,
    pub end: u32,
    pub cost: u32,
}

/// A settled goto fact: the fact, the target of the goto, and the cost of its word.
#[derive(Clone, Copy, Drop)]
pub struct SettledGoto {
    pub fact: GotoFact,
    pub target: u32,
    pub cost: u32,
}

/// The queue; the settled rests that follow a nonterminal, by the class of their first token in the state where they
/// begin; and the settled goto facts, by the class of the next token in the target.
#[derive(Drop)]
pub struct RestData {
    pub queue: Queue<WaitingWord>,
    pub rests: Vec<Vec<SettledRest>>,
    pub gotos: Vec<Vec<SettledGoto>>,
}
