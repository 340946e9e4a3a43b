//! The types of mentions.
use mh_rules::Ref;

/// What a name or string of a file is there for. Declarations, items of lists, alternatives and producers are counted
/// from 0; alternatives among all of the file, declarations among those of their kind in the file.
#[derive(Clone, Copy, Drop, PartialEq, Eq)]
pub enum Role {
    /// The name of a declared token.
    Token,
    /// The string of a declared token.
    Alias,
    /// A declared start symbol.
    Start,
    /// A name or string in the level declaration of this rank.
    Level { rank: u64 },
    /// A head in this actual of the `%on_error_reduce` declaration of this rank.
    OnError { rank: u64, item: u64 },
    /// The name of a rule.
    Rule,
    /// A formal of a rule.
    Formal,
    /// A head in this producer of an alternative. A suffix `?`, `*` or `+` is a head, too: `option`, `list` or
    /// `nonempty_list`.
    Head { alternative: u64, producer: u64 },
    /// The name or string after the `%prec` of an alternative.
    Prec { alternative: u64 },
    /// The name or string after the `%prec` of a group, which is that of each alternative of the group, from the first
    /// to the last, that has none of its own.
    GroupPrec { first: u64, last: u64 },
}

/// A name or string of a file, with the position at which its lexeme begins, from 0.
#[derive(Drop)]
pub struct Mention {
    pub start: usize,
    pub role: Role,
    pub name: Ref,
}
