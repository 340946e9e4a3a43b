//! The faults for which the files of a grammar cannot be joined.
use mh_grammar::Name;
use thiserror::Error;

/// The first fault in the files, in the order of these variants. Within a variant the files are examined in order, and
/// within a file its tokens, starts, levels, on-error declarations and rules, each list in order.
#[derive(Debug, Drop, PartialEq, Eq, Error)]
pub enum JoinFault {
    /// This name or string is not defined: a head in a rule or in an on-error declaration, a start symbol that no file
    /// of the grammar defines, or a string that is no alias. The head `error` in a rule is reported as `ErrorToken`
    /// instead.
    #[error("undefined")]
    Undefined { name: Name },
    /// This name or string has two meanings. The cases, in the order of the search: a name is both a token and a rule;
    /// an alias has two tokens; a file has two private rules of one name; a rule has one formal twice; joined
    /// definitions of a rule differ in their number of formals or in `%inline`; a name gets two levels, where an alias
    /// counts as its token. In each case the fault is at the first second occurrence; the name given is the alias in
    /// the second case, the formal in the fourth, and the token of the alias in the last.
    #[error("duplicate")]
    Duplicate { name: Name },
    /// No file names a start symbol.
    #[error("no start symbol")]
    NoStart,
    /// A head in a rule is the word `error`, even if a formal or a rule has that name.
    #[error("the error token is refused")]
    ErrorToken,
    /// The name after a `%prec` is no token and has no level.
    #[error("unknown level")]
    UnknownLevel { name: Name },
    /// The files declare more than 512 tokens of different names; `count` is their number.
    #[error("too many tokens: {count}")]
    TooManyTokens { count: u64 },
    /// Memory ran out.
    #[error("out of memory")]
    Memory,
}
