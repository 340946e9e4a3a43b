//! Lexemes and their kinds, syntax faults, and the results of the steps of lexing.
ghost use Rattle.std.specs.Prelude.{◌≡◌};
ghost use Rattle.mh_lex.specs.declared.kinds.SyntaxFault.TheVariants.{Memory};

use crate::code::Delimiter;
use std::alloc::AllocError;
use thiserror::Error;

/// The kind of a lexeme.
#[derive(Clone, Copy, Drop, PartialEq, Eq)]
pub enum Kind {
    /// A word: an ASCII letter or `_`, then letters, digits, `_` and `'`.
    Word,
    /// A punctuation mark: one of `:` `|` `=` `,` `;` `(` `)` `?` `*` `+`.
    Mark,
    /// `%%`.
    Percents,
    /// A keyword: `%` and one of the words that may follow it.
    Keyword,
    /// A string between `"`, in which `\` escapes the next byte.
    Quoted,
    /// A header: from `%{` to `%}`.
    Header,
    /// An action: from `{` to the `}` that closes it.
    Action,
    /// A type: from `<` to the first `>` that is not the end of `->`.
    TypeText,
    /// An attribute: from `[@` or `%[@` to the `]` that closes it.
    Attribute,
}

/// A lexeme: its kind, the position of its first byte, and the position after its last byte.
#[derive(Clone, Copy, Drop, PartialEq, Eq)]
pub struct Lexeme {
    pub kind: Kind,
    pub start: usize,
    pub end: usize,
}

/// Why bytes could not be read.
#[derive(Clone, Copy, Debug, Drop, PartialEq, Eq, Error)]
pub enum SyntaxFault {
    /// The bytes have a syntax error. Lines are counted from 1; each call documents which line it reports.
    #[error("{line}: syntax error")]
    Syntax { line: u32 },
    /// There was no memory.
    #[error("out of memory")]
    Memory,
}

impl From<AllocError> for SyntaxFault {
    ghost from_gives = { λ _ fault. fault ≡ Memory };

    fn from(_error: AllocError) -> SyntaxFault {
        SyntaxFault::Memory
    }
}

/// Why bytes could not be read, with the position of the fault.
#[derive(Clone, Copy, Drop, PartialEq, Eq)]
pub enum PlacedFault {
    /// The bytes have a syntax error at this position, from 0; each call documents which position it reports.
    Syntax { place: usize },
    /// There was no memory.
    Memory,
}

/// The piece with which bytes outside of code begin, and its length. A start without a kind is a blank or a comment,
/// which is dropped.
#[derive(Clone, Copy, Drop)]
pub(crate) enum LexemeStart {
    /// No byte is left.
    Ended,
    /// A whole lexeme, blank or line comment.
    Short(Option<Kind>, usize),
    /// An opening of something that has to be closed.
    Long(Option<Kind>, Delimiter, usize),
    /// A lexical fault: nothing begins with these bytes.
    Fault,
}

/// The result of a scan at a position: the kind of the piece found there, and the position after it.
#[derive(Clone, Copy, Drop)]
pub(crate) enum Scan {
    Ended,
    Piece(Option<Kind>, usize),
    Fault,
}
