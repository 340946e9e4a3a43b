//! The outlines of rules.
use mh_grammar::Name;

/// A rule without its alternatives, as its first definition gives them: the name, the owner, `%inline` and the number
/// of formals.
#[derive(Drop)]
pub struct Outline {
    pub name: Name,
    /// The number of the file in which the rule is private, or `None` for a public rule; the prelude is file 0.
    pub owner: Option<u64>,
    pub inlined: bool,
    pub formals: u64,
}
