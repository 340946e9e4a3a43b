//! The ranks of terms by the `%on_error_reduce` declarations.
ghost use Rattle.std.specs.Prelude.{◌≡◌, ◌∷◌, ◌++◌, [], List, length, nat_eq, IfOk, OnOk};
ghost use Rattle.indexmap.specs.IndexMap.{get};
ghost use Rattle.mh_rules.specs.declared.joined.Applied.{Applied as Actual};
ghost use Rattle.mh_expand.specs.code.SharedTerms.{terms_of};
ghost use Rattle.mh_expand.specs.code.InstanceSearch.{AreRanks, AddsRank};

use crate::replacing::replace;
use crate::terms::Terms;
use indexmap::IndexMap;
use mh_grammar::{Memory, Sequence};
use mh_rules::Applied;
use std::alloc::Global;

/// The position of the first declaration that names each term, from 0.
pub(crate) type Ranks = IndexMap<usize, u64>;

/// Records the rank of the terms that a declaration names, unless an earlier declaration names them.
fn add_ranks(
    alloc: Global,
    terms: &mut Terms,
    ranks: &mut Ranks,
    rank: u64,
    declaration: &[Applied],
) -> Result<(), Memory>
    ensures { OnOk result ((before : List (List Actual)) → length before ≡ rank →
        AreRanks before (terms_of terms.old.nodes.keys) (get nat_eq ranks.old) →
        AreRanks (before ++ declaration.now ∷ []) (terms_of terms.new.nodes.keys)
        (get nat_eq ranks.new)) }
{
    for applied in declaration {
        let number = replace(alloc, terms, &[], applied)?;
        add_rank(ranks, number, rank)?;
    }
    Ok(())
}

/// The ranks of the terms that the declarations name.
pub(crate) fn ranks_of(
    alloc: Global,
    terms: &mut Terms,
    declarations: &[Sequence<Applied>],
) -> Result<Ranks, Memory>
    requires { terms_of terms.old.nodes.keys ≡ [] }
    ensures { IfOk result (λ r. AreRanks declarations.now (terms_of terms.new.nodes.keys) (get nat_eq r)) }
{
    let mut ranks = IndexMap::new(alloc);
    for (rank, declaration) in declarations.iter().enumerate() {
        add_ranks(
            alloc,
            terms,
            &mut ranks,
            rank as u64,
            declaration.as_slice(),
        )?;
    }
    Ok(ranks)
}

/// The rank of a term, if a declaration names the term.
pub(crate) fn rank_of(ranks: &Ranks, number: usize) -> Option<u64>
    ensures { result ≡ get nat_eq ranks.now number }
{
    ranks.get(&number).copied()
}

/// Records a rank, unless the term has one already.
fn add_rank(ranks: &mut Ranks, number: usize, rank: u64) -> Result<(), Memory>
    ensures { OnOk result (AddsRank (get nat_eq ranks.old) (get nat_eq ranks.new) number rank) }
{
    if !ranks.contains_key(&number) {
        ranks.insert(number, rank)?;
    }
    Ok(())
}
