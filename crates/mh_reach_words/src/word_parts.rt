//! The parts of a word.
use mh_grammar::Token;

/// The last part of a word.
#[derive(Clone, Copy, PartialEq, Eq, Hash, Drop)]
pub enum LastPart {
    Token(Token),
    /// The word of this number.
    Word(usize),
}

/// The parts of a word: the number of an earlier word, which is its prefix, and the last part.
#[derive(Clone, Copy, PartialEq, Eq, Hash, Drop)]
pub struct WordParts {
    pub front: usize,
    pub last: LastPart,
}

/// The entry of a word in a book, the list of the numbered words: the parts of the word, and its group. The words of a
/// group were added to the book together.
#[derive(Clone, Copy, Drop)]
pub struct WordEntry {
    pub made: WordParts,
    pub group: u32,
}
