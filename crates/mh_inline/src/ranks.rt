//! Ranks of instances. An inline instance uses no instance of a higher rank; the instances that it uses have lower
//! ranks, unless they are on a cycle with it.
ghost use Rattle.std.specs.Prelude.{◌≡◌, ◌<◌, length, slice_index_or, IfOk, IsTrue};
ghost use Rattle.std.specs.List.{All};
ghost use Rattle.mh_inline_unfold.specs.Instances.{Reaches};
ghost use Rattle.mh_inline.specs.code.InstanceRanks.{AreRanked, IsRankedAbove, IsRanked};

use mh_grammar::Memory;
use mh_inline_unfold::{inlined_in, is_inline};
use mh_rules::Expanded;
use std::alloc::Global;

fn rank_of(ranks: &[usize], number: usize) -> usize
    ensures { result ≡ slice_index_or ranks.now number 0 }
{
    match ranks.get(number) {
        Some(rank) => *rank,
        None => 0,
    }
}

fn are_below(ranks: &[usize], numbers: &[usize], bound: usize) -> bool
    ensures { IsTrue result → All (λ m. slice_index_or ranks.now m 0 < bound) numbers.now }
{
    for number in numbers {
        if rank_of(ranks, *number) >= bound {
            return false;
        }
    }
    true
}

/// Whether all inline instances that an instance uses have ranks below this one.
fn is_above(
    alloc: Global,
    expanded: &Expanded,
    ranks: &[usize],
    number: usize,
    rank: usize,
) -> Result<bool, Memory>
    requires { number < length expanded.now.instances }
    ensures { IfOk result (λ above. IsTrue above → IsRankedAbove expanded.now.instances ranks.now number rank) }
{
    let made_of = inlined_in(alloc, expanded, number)?;
    Ok(are_below(ranks, made_of.as_slice(), rank))
}

fn is_ranked(
    alloc: Global,
    expanded: &Expanded,
    ranks: &[usize],
    number: usize,
) -> Result<bool, Memory>
    requires { number < length expanded.now.instances }
    ensures { IfOk result (λ ranked. IsTrue ranked → IsRanked expanded.now.instances ranks.now number) }
{
    if !is_inline(expanded, number) {
        return Ok(true);
    }
    let bound = rank_of(ranks, number).saturating_add(1);
    is_above(alloc, expanded, ranks, number, bound)
}

/// Whether no inline instance uses an instance of a higher rank.
pub(crate) fn are_ranked(
    alloc: Global,
    expanded: &Expanded,
    ranks: &[usize],
) -> Result<bool, Memory>
    ensures { IfOk result (λ ranked. IsTrue ranked → AreRanked expanded.now.instances ranks.now) }
{
    for number in 0..expanded.instances.len() {
        if !is_ranked(alloc, expanded, ranks, number)? {
            return Ok(false);
        }
    }
    Ok(true)
}

/// Whether the ranks show that an instance does not reach itself.
pub(crate) fn is_on_no_cycle(
    alloc: Global,
    expanded: &Expanded,
    ranks: &[usize],
    number: usize,
) -> Result<bool, Memory>
    requires number { number < length expanded.now.instances }
    requires ranks { AreRanked expanded.now.instances ranks.now }
    ensures { IfOk result (λ none. IsTrue none → Reaches expanded.now.instances number number → ⊥) }
{
    is_above(alloc, expanded, ranks, number, rank_of(ranks, number))
}
