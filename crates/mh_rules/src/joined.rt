//! The joined rules of several files.
use mh_grammar::{Level, Name, Sequence, Token, TokenInfo};

/// The greatest number of tokens of a grammar, a limit of this project.
pub const MAX_TOKENS: usize = 512;

/// The meaning of a name: a formal of its rule by its index, a token by its number, or a rule by its index in the list
/// of rules. All count from 0.
#[derive(Clone, Copy, PartialEq, Eq, Hash)]
pub enum Head {
    Formal(u64),
    Token(Token),
    Rule(u64),
}

/// A head with actual arguments. It is as deep as the actual from which it is made.
#[derive(Drop)]
pub struct Applied {
    pub head: Head,
    pub args: Sequence<Applied>,
}

/// The `%prec` of a production: absent, or given, with the level of its name if the name has one.
#[derive(Clone, Copy)]
pub enum Prec {
    Absent,
    Given(Option<Level>),
}

/// An alternative whose names are resolved.
#[derive(Drop)]
pub struct JoinedAlternative {
    /// The number of its file: files are counted from 1, and the prelude is file 0.
    pub file: u64,
    /// Its index among all alternatives of the file, from 0.
    pub place: u64,
    pub producers: Sequence<Applied>,
    pub prec: Prec,
}

/// A rule with the number of its formals, and the alternatives of all its definitions in order of files and text.
#[derive(Drop)]
pub struct JoinedRule {
    /// The printed name. `@k` follows the name of a private rule of file k if another file also defines the name, and
    /// `@0` follows the name of a rule of the prelude if a file defines the name.
    pub name: Name,
    pub inlined: bool,
    pub formals: u64,
    pub alternatives: Sequence<JoinedAlternative>,
}

/// The tokens, starts, on-error declarations and rules of all files.
pub struct Joined {
    /// The tokens in order of first declaration. A level has the number of its file, from 1, and its rank in the file,
    /// from 0.
    pub tokens: Sequence<TokenInfo>,
    /// The index of each start in the list of rules, in the order in which the starts are first named.
    pub starts: Sequence<u64>,
    /// The `%on_error_reduce` declarations in order of files and text. The rank of a declaration is its index, from 0.
    pub on_error: Sequence<Sequence<Applied>>,
    /// The rules in order of their first definitions; those of the prelude come last.
    pub rules: Sequence<JoinedRule>,
}

// The exit of a function drops this value by one call. With the derived destructor it would drop each field.
impl Drop for Joined {
    fn drop(self) {
        let Joined {
            tokens,
            starts,
            on_error,
            rules,
        } = self;
        drop(tokens);
        drop(starts);
        drop(on_error);
        drop(rules);
    }
}
