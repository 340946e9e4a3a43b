//! The types of a catalogue's rows and faults.
use mh_grammar::{Sequence, Token};

/// A state in which a sentence fails, with the first of these sentences: the number of its start, from 0, and its
/// tokens. The last token is refused in the state.
#[derive(Drop)]
pub struct Row {
    pub state: u32,
    pub start: u16,
    pub sentence: Sequence<Token>,
}

/// The reason why there is no catalogue.
#[derive(Clone, Copy, PartialEq, Eq, Drop)]
pub enum CatalogueFault {
    /// Sentences fail in this state, but each costs more than 1,000,000; it is the lowest state of which this is true.
    TooLong { state: u32 },
    /// Memory ran out.
    Memory,
}
