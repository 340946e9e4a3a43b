//! The types of a plain grammar.
use crate::name::Name;
use crate::sequence::Sequence;
use std::alloc::{AllocError, AllocFailed};

/// The fault of a call that had no memory.
#[derive(Clone, Copy, Debug, PartialEq, Eq)]
pub struct Memory;

impl From<AllocError> for Memory {
    fn from(_: AllocError) -> Memory {
        Memory
    }
}

impl<T: Drop> From<AllocFailed<T>> for Memory {
    fn from(_: AllocFailed<T>) -> Memory {
        Memory
    }
}

/// Drops a value after a lack of memory, and returns the fault. One call for the whole value is much cheaper to prove
/// than to drop each field.
pub fn lost<T: Drop>(value: T) -> Memory {
    drop(value);
    Memory
}

/// The number of a token, from 0, in order of first declaration.
pub type Token = u16;

/// A token or a nonterminal, by its number, from 0.
#[derive(Clone, Copy, Debug, PartialEq, Eq)]
pub enum Symbol {
    T(Token),
    N(u16),
}

/// A lookahead of an item: a token, or the end of the stream, which is not a token.
#[derive(Clone, Copy, Debug, PartialEq, Eq)]
pub enum Look {
    Token(Token),
    End,
}

/// The associativity of a precedence level.
#[derive(Clone, Copy, PartialEq, Eq)]
pub enum Assoc {
    Left,
    Right,
    Nonassoc,
}

/// A level of precedence. Two levels are comparable only if they are of one file; the later level is higher.
#[derive(Clone, Copy, PartialEq, Eq)]
pub struct Level {
    /// The number of the file that declares the level: files are counted from 1, in the order of the command line.
    pub file: u64,
    /// The index, from 0, among the declarations of levels in the file.
    pub rank: u64,
    /// The associativity of its tokens.
    pub assoc: Assoc,
}

/// The greatest number of tokens, of nonterminals or of starts: each has a number of 16 bits.
pub const MAX_NUMBERED: usize = 65_535;

/// The highest cost of a token; the lowest is 1.
pub const MAX_COST: u32 = 1000;

/// The greatest height of a syntax tree, a limit of this project; it bounds the depth of every walk over a tree.
pub const MAX_HEIGHT: u32 = 4000;

/// A token of the grammar: its name, cost and level.
#[derive(Clone, Drop, PartialEq, Eq)]
pub struct TokenInfo {
    /// The name, as declared.
    pub name: Name,
    /// The level of precedence, if a declaration gives one.
    pub level: Option<Level>,
    /// The cost of the token in a sentence: from 1 to [`MAX_COST`](crate::types::MAX_COST), and 1 if no declaration
    /// gives a cost.
    pub cost: u32,
}

/// A nonterminal of the grammar: its name and its on-error declaration.
#[derive(Drop)]
pub struct NontermInfo {
    /// The name; that of an instance has the arguments in it.
    pub name: Name,
    /// The index, from 0, of the first `%on_error_reduce` declaration that names it.
    pub on_error: Option<u64>,
}

/// An ordinary production.
#[derive(Drop)]
pub struct Production {
    /// The number of the nonterminal on the left side.
    pub lhs: u16,
    /// The right side.
    pub rhs: Sequence<Symbol>,
    /// The level of precedence, if the production has one.
    pub level: Option<Level>,
}

/// A grammar. Productions are numbered with those of the starts first: production i below the number of starts is `S'
/// -> S` for start i, and the ordinary productions follow in order. There are at most 65,535 tokens, nonterminals and
/// starts each, fewer than 2^32 productions, and fewer than 2^32 symbols in a right side. `is_in_range` of mh_grammar
/// tests these limits, and that each number in the grammar names something.
pub struct Grammar {
    /// The tokens, by number.
    pub tokens: Sequence<TokenInfo>,
    /// The nonterminals, by number.
    pub nonterminals: Sequence<NontermInfo>,
    /// The ordinary productions.
    pub productions: Sequence<Production>,
    /// The nonterminal of each start, by the start's number.
    pub starts: Sequence<u16>,
}

// The exit of a function drops this value by one call. With the derived destructor it would drop each field.
impl Drop for Grammar {
    fn drop(self) {
        let Grammar {
            tokens,
            nonterminals,
            productions,
            starts,
        } = self;
        drop(tokens);
        drop(nonterminals);
        drop(productions);
        drop(starts);
    }
}

/// A sentence: the number of a start, from 0, and tokens.
#[derive(Drop)]
pub struct Sentence {
    pub start: u16,
    pub tokens: Sequence<Token>,
}
