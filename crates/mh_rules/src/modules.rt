//! The content of a grammar file. It has no code and no types, and of the attributes only the costs of tokens.
use mh_grammar::{Assoc, Name, Sequence};

/// The greatest depth of an actual: 1 without arguments, or one more than its deepest argument.
pub const MAX_DEPTH: usize = 1000;

/// A name, or a string that should be an alias, without its quotes.
#[derive(Drop)]
pub enum Ref {
    Plain(Name),
    Alias(Name),
}

/// A name or an alias with actual arguments. `X?`, `X*` and `X+` are `option`, `list` and `nonempty_list` of `X`. A
/// recursive call over an actual is as deep as the actual; so public calls that recurse ask for a depth of at most
/// `MAX_DEPTH`.
#[derive(Drop)]
pub struct Actual {
    pub head: Ref,
    pub args: Sequence<Actual>,
}

/// A production: its producers, and its own `%prec` or else that of its group.
#[derive(Drop)]
pub struct Alternative {
    pub producers: Sequence<Actual>,
    pub prec: Option<Ref>,
}

/// A rule with its modifiers and formals.
#[derive(Drop)]
pub struct Rule {
    pub public: bool,
    pub inlined: bool,
    pub name: Name,
    pub formals: Sequence<Name>,
    pub alternatives: Sequence<Alternative>,
}

/// The declaration of a token, with its alias and its cost, if they are given.
#[derive(Drop)]
pub struct TokenDecl {
    pub name: Name,
    pub alias: Option<Name>,
    /// The cost, from 1 to 1,000.
    pub cost: Option<u32>,
}

/// A `%left`, `%right` or `%nonassoc` declaration.
#[derive(Drop)]
pub struct LevelDecl {
    pub assoc: Assoc,
    pub names: Sequence<Ref>,
}

/// A grammar file: its declarations of each kind in order, and its rules.
#[derive(Drop)]
pub struct Module {
    pub tokens: Sequence<TokenDecl>,
    pub starts: Sequence<Name>,
    pub levels: Sequence<LevelDecl>,
    pub on_error: Sequence<Sequence<Actual>>,
    pub rules: Sequence<Rule>,
}
