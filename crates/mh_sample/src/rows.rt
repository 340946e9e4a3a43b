//! Computes the least length of each nonterminal, and for each nonterminal the productions with the least lengths of
//! their right sides.
ghost use Rattle.std.specs.Prelude.{◌≡◌, ◌<◌, ◌+◌, ◌^◌, ℕ, [], length, vec_len, map, slice_index_or, IfOk, OnOk};
ghost use Rattle.std.specs.List.{All};
ghost use Rattle.mh_grammar.specs.Plain.{plain_of, IsInRange, IsSymbolBelow};
ghost use Rattle.mh_sample.specs.code.Rows.{length_for, length_in, lengths_in, IsRow};

use crate::word::{MAX_WORD, Shortest};
use mh_grammar::{Grammar, Memory, Production, Sequence, Symbol};
use std::alloc::Global;

/// A production of a nonterminal.
#[derive(Clone, Copy)]
pub struct Choice {
    /// The index of the production among the ordinary productions.
    pub place: u32,
    /// The least length of the right side.
    pub length: usize,
}

/// The length of a shortest word, or `MAX_WORD` + 1 if there is no word of at most `MAX_WORD` tokens.
fn length_for(shortest: &Shortest) -> usize
    ensures { result ≡ length_for shortest.now }
{
    match shortest {
        Shortest::None => MAX_WORD + 1,
        Shortest::Longer => MAX_WORD + 1,
        Shortest::Word(word) => word.len(),
    }
}

/// The least length of the words of each nonterminal.
pub fn least_lengths(alloc: Global, shortest: &[Shortest]) -> Result<Vec<usize>, Memory>
    ensures { IfOk result (λ v. v.items ≡ map length_for shortest.now) }
{
    let mut lengths = Vec::new(alloc);
    for answer in shortest {
        lengths.push(length_for(answer))?;
    }
    Ok(lengths)
}

/// The least length of the words of a symbol.
pub fn length_of(lengths: &[usize], symbol: Symbol) -> usize
    requires { IsSymbolBelow (2 ^ 16) (length lengths.now) symbol }
    ensures { result ≡ length_in lengths.now symbol }
{
    match symbol {
        Symbol::T(_) => 1,
        Symbol::N(n) => lengths[usize::from(n)],
    }
}

/// The least length of the words of a right side.
fn length_of_all(lengths: &[usize], symbols: &[Symbol]) -> usize
    requires below { All (IsSymbolBelow (2 ^ 16) (length lengths.now)) symbols.now }
    requires few { length symbols.now < 2 ^ 32 }
    requires short { All (λ n. n < 2 ^ 16) lengths.now }
    ensures { result ≡ lengths_in lengths.now symbols.now }
{
    let mut sum = 0;
    for symbol in symbols {
        sum += length_of(lengths, *symbol);
    }
    sum
}

/// An empty row for each nonterminal.
fn no_choices(alloc: Global, nonterminals: usize) -> Result<Vec<Sequence<Choice>>, Memory>
    ensures len { IfOk result (λ v. vec_len v ≡ nonterminals) }
    ensures none { IfOk result (λ v. (n : ℕ) → slice_index_or v.items n [] ≡ []) }
{
    let mut rows = Vec::new(alloc);
    for _ in 0..nonterminals {
        rows.push(Sequence::new(alloc))?;
    }
    Ok(rows)
}

/// The row of each nonterminal: its productions, in order.
pub fn rows_of(
    alloc: Global,
    grammar: &Grammar,
    lengths: &[usize],
) -> Result<Vec<Sequence<Choice>>, Memory>
    requires range { IsInRange (plain_of grammar.now) }
    requires all { length lengths.now ≡ length grammar.now.nonterminals }
    requires short { All (λ n. n < 2 ^ 16) lengths.now }
    ensures len { IfOk result (λ v. vec_len v ≡ length grammar.now.nonterminals) }
    ensures rows { IfOk result (λ v. (n : ℕ) → IsRow (plain_of grammar.now) lengths.now (length grammar.now.productions) n (slice_index_or v.items n [])) }
{
    let mut rows = no_choices(alloc, grammar.nonterminals.len())?;
    let mut place = 0u32;
    for production in grammar.productions.as_slice() {
        let length = length_of_all(lengths, production.rhs.as_slice());
        rows[usize::from(production.lhs)].push(Choice { place, length })?;
        place += 1;
    }
    Ok(rows)
}
