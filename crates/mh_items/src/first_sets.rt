//! The types of the sets and lists from which closures are computed.
use crate::links::FirstLink;
use mh_grammar::Sequence;
use mh_sets::TokenSet;

/// For each nonterminal, whether it is nullable, and its FIRST set.
#[derive(Drop)]
pub(crate) struct NullableAndFirst<const W: usize> {
    /// For each nonterminal, whether it is nullable.
    pub(crate) nullable: Sequence<bool>,
    /// For each nonterminal, its FIRST set.
    pub(crate) first: Sequence<TokenSet<W>>,
}

/// The nullable and FIRST sets of a grammar, and, for each nonterminal, its productions and their links. A production
/// A -> B x that begins with a nonterminal B has a link: B, with the looks that a closure passes on from A to B (FIRST
/// of x; and the looks of A too, if x is nullable).
#[derive(Drop)]
pub struct Firsts<const W: usize> {
    /// The nullable and FIRST sets.
    pub(crate) sets: NullableAndFirst<W>,
    /// For each nonterminal, the links of those of its productions that begin with a nonterminal.
    pub(crate) links: Sequence<Sequence<FirstLink<W>>>,
    /// For each nonterminal, the numbers of its productions.
    pub(crate) productions: Sequence<Sequence<u32>>,
}
