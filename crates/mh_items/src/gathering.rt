//! Computes the sets and lists from which closures are computed.
ghost use Rattle.std.specs.Prelude.{◌≡◌, ◌<◌, ◌≤◌, ◌*◌, ◌↔◌, ℕ, List, [], length, vec_len, map, slice_get, Some, IfOk};
ghost use Rattle.std.specs.List.{All, Contains};
ghost use Rattle.mh_grammar.specs.declared.types.Symbol.TheVariants.{N};
ghost use Rattle.mh_grammar.specs.Plain.{PlainGrammar, plain_of, IsInRange, IsProductionFor};
ghost use Rattle.mh_grammar.specs.First.{First};
ghost use Rattle.mh_grammar.specs.declared.types.Look.{Look as LookOf};
ghost use Rattle.mh_items.specs.Fitting.{FitsSets};
ghost use Rattle.mh_items.specs.declared.links.FirstLink.{FirstLink as LinkOf};
ghost use Rattle.mh_items.specs.code.Links.{IsTokenOf, AreFirstSets};
ghost use Rattle.mh_items.specs.Firsts.{AreFirsts, AreNullableAndFirst, AreLinksOf};

use crate::first_sets::{Firsts, NullableAndFirst};
use crate::links::{FirstLink, link_of};
use mh_grammar::{Grammar, Look, Memory, Sequence, Token, first, nullable};
use mh_sets::TokenSet;
use std::alloc::Global;

/// Returns the nullable and FIRST sets of a grammar and, for each nonterminal, the numbers of its productions and its
/// links. A link is the first symbol of a production, if it is a nonterminal, with FIRST of the symbols after it. The
/// function fails only if there is no memory.
pub fn firsts<const W: usize>(alloc: Global, grammar: &Grammar) -> Result<Firsts<W>, Memory>
    requires fits { FitsSets W grammar.now }
    ensures { IfOk result (AreFirsts (plain_of grammar.now)) }
{
    let productions = all_productions(alloc, grammar)?;
    let sets = sets_of(alloc, grammar)?;
    let links = all_links(alloc, grammar, &sets)?;
    Ok(Firsts {
        sets,
        links,
        productions,
    })
}

fn sets_of<const W: usize>(alloc: Global, grammar: &Grammar) -> Result<NullableAndFirst<W>, Memory>
    requires fits { FitsSets W grammar.now }
    ensures { IfOk result (AreNullableAndFirst (plain_of grammar.now)) }
{
    let empty = nullable(alloc, grammar)?;
    let rows = first(alloc, grammar)?;
    let first = sets_from(alloc, grammar, rows.as_slice())?;
    Ok(NullableAndFirst {
        nullable: Sequence::from_vec(empty),
        first,
    })
}

/// The FIRST lists as token sets.
fn sets_from<const W: usize>(
    alloc: Global,
    grammar: &Grammar,
    rows: &[Vec<Token>],
) -> Result<Sequence<TokenSet<W>>, Memory>
    requires fits { FitsSets W grammar.now }
    requires len { length rows.now ≡ length grammar.now.nonterminals }
    requires exact { (n : ℕ) (row : List ℕ) → slice_get (map (λ row. row.items) rows.now) n ≡ Some row → (a : ℕ) → Contains row a ↔ First (plain_of grammar.now) (N n) a }
    ensures { IfOk result (AreFirstSets (plain_of grammar.now)) }
{
    // Only the contract uses the grammar.
    let _grammar = grammar;
    let mut made = Vec::new(alloc);
    for row in rows {
        made.push(set_of(row.as_slice()))?;
    }
    Ok(Sequence::from_vec(made))
}

/// The set of the tokens in a list.
fn set_of<const W: usize>(tokens: &[Token]) -> TokenSet<W>
    requires few { W ≤ 8 }
    requires below { All (λ a. a < 64 * W) tokens.now }
    ensures { (b : LookOf) → Contains result b ↔ IsTokenOf tokens.now b }
{
    let mut set = TokenSet::empty();
    for token in tokens {
        set.insert(Look::Token(*token));
    }
    set
}

/// The links of each nonterminal: for each of its productions that begin with a nonterminal, this nonterminal and FIRST
/// of the symbols after it.
fn all_links<const W: usize>(
    alloc: Global,
    grammar: &Grammar,
    sets: &NullableAndFirst<W>,
) -> Result<Sequence<Sequence<FirstLink<W>>>, Memory>
    requires fits { FitsSets W grammar.now }
    requires sets { AreNullableAndFirst (plain_of grammar.now) sets.now }
    ensures len { IfOk result (λ links. length links ≡ length grammar.now.nonterminals) }
    ensures exact { IfOk result (λ links. (n : ℕ) (row : List (LinkOf W)) → slice_get links n ≡ Some row → AreLinksOf (plain_of grammar.now) n row) }
{
    let mut rows = empty_rows(alloc, grammar.nonterminals.len())?;
    for production in grammar.productions.as_slice() {
        if let Some(link) = link_of(sets, production.rhs.as_slice()) {
            rows[usize::from(production.lhs)].push(link)?;
        }
    }
    Ok(Sequence::from_vec(rows))
}

/// The numbers of each nonterminal's productions.
fn all_productions(alloc: Global, grammar: &Grammar) -> Result<Sequence<Sequence<u32>>, Memory>
    requires range { IsInRange (plain_of grammar.now) }
    ensures len { IfOk result (λ productions. length productions ≡ length grammar.now.nonterminals) }
    ensures exact { IfOk result (λ productions. (n : ℕ) (row : List ℕ) → slice_get productions n ≡ Some row → (p : ℕ) → Contains row p ↔ IsProductionFor (plain_of grammar.now) n p) }
{
    let starts = grammar.starts.len();
    let mut rows = empty_rows(alloc, grammar.nonterminals.len())?;
    for (place, production) in grammar.productions.as_slice().iter().enumerate() {
        rows[usize::from(production.lhs)].push((starts + place) as u32)?;
    }
    Ok(Sequence::from_vec(rows))
}

fn empty_rows<T: Drop>(alloc: Global, count: usize) -> Result<Vec<Sequence<T>>, Memory>
    ensures len { IfOk result (λ rows. vec_len rows ≡ count) }
    ensures empty { IfOk result (λ rows. All (λ row. row ≡ []) rows.items) }
{
    let mut rows = Vec::new(alloc);
    for _ in 0..count {
        rows.push(Sequence::new(alloc))?;
    }
    Ok(rows)
}
