//! Instances: rules without formals, one for each rule with actuals that the starts reach.
use crate::joined::Prec;
use mh_grammar::{Name, Sequence, Token, TokenInfo};

/// The greatest number of instances of a grammar, a limit of this project.
pub const MAX_INSTANCES: usize = 20_000;

/// A symbol of an instance's right side: the number of a token or of an instance, from 0.
#[derive(Clone, Copy)]
pub enum Part {
    Token(Token),
    Instance(u32),
}

/// An alternative of an instance.
#[derive(Drop)]
pub struct InstanceProduction {
    /// The number of its file: files are counted from 1, and the prelude is file 0.
    pub file: u64,
    /// Its index among all alternatives of the file, from 0.
    pub place: u64,
    pub rhs: Sequence<Part>,
    pub prec: Prec,
}

/// An instance: a rule applied to actuals.
#[derive(Drop)]
pub struct Instance {
    /// The printed name of its rule, followed by its arguments in `(`, `,` and `)`, if it has any; at most 1,000 bytes.
    pub name: Name,
    pub inlined: bool,
    /// The first `%on_error_reduce` declaration that names the instance, if one does: its index, from 0, among all such
    /// declarations of all files.
    pub on_error: Option<u64>,
    pub productions: Sequence<InstanceProduction>,
}

/// The instances in the order in which they are found, the numbers of the starts among them, and the tokens.
pub struct Expanded {
    pub tokens: Sequence<TokenInfo>,
    pub starts: Sequence<u32>,
    pub instances: Sequence<Instance>,
}

// The exit of a function drops this value by one call. With the derived destructor it would drop each field.
impl Drop for Expanded {
    fn drop(self) {
        let Expanded {
            tokens,
            starts,
            instances,
        } = self;
        drop(tokens);
        drop(starts);
        drop(instances);
    }
}
