//! Makes the unfoldings of producers, of alternatives and of inline instances from those of the inline instances that
//! they use.
ghost use Rattle.std.specs.Prelude.{◌≡◌, ◌+◌, ◌<◌, ◌∷◌, [], List, Some, IfOk, OnOk, IfSome, length, slice_get};
ghost use Rattle.mh_inline_unfold.specs.declared.unfolding.Unfolding.{Unfolding as Unfolded};
ghost use Rattle.mh_rules.specs.Ready.{IsExpandedReady};
ghost use Rattle.mh_inline_unfold.specs.Unfoldings.{Unfolds, UnfoldsEach, UnfoldsPart};
ghost use Rattle.mh_inline.specs.code.KnownUnfoldings.{AreKnown, AreEachKnown, ExtendsByProducer, IsNextToUnfold};
ghost use Rattle.mh_inline.specs.code.MovableProducers.{IsInlineProducerOf, LacksOnlyMoved};
ghost use Rattle.mh_rules.specs.declared.instances.Instance.{Instance as Row};
ghost use Rattle.mh_inline.specs.code.LastUses.{AreLastUses, KnowsNeeded, KnowsUsed};
ghost use Rattle.mh_inline_unfold.specs.code.Sizes.{AreSmall, IsSizeTable};

use crate::moving::{LastUse, last_use_of, unfold_with};
use crate::uses::{forget_inlined, last_uses};
use mh_grammar::{Memory, Sequence};
use mh_inline_unfold::{
    SizeTable, Unfolding, add_own, inline_part, is_small, just_nothing, put_after, put_part,
};
use mh_rules::{Expanded, InstanceProduction, Part};
use std::alloc::Global;

fn unfold_part(
    alloc: Global,
    expanded: &Expanded,
    known: &[Sequence<Unfolding>],
    all: &mut Vec<Unfolding>,
    part: Part,
) -> Result<(), Memory>
    requires { AreKnown expanded.now.instances known.now (part ∷ []) }
    ensures { OnOk result (ExtendsByProducer expanded.now.instances part all.old.items all.new.items) }
{
    match inline_part(expanded, part) {
        Some(number) => put_after(alloc, all, known[number].as_slice()),
        None => put_part(alloc, all, part),
    }
}

/// All unfoldings of a list of producers, in order; `known` has those of the inline producers. Fails only if memory
/// runs out.
pub(crate) fn unfold_side(
    alloc: Global,
    expanded: &Expanded,
    known: &[Sequence<Unfolding>],
    producers: &[Part],
) -> Result<Vec<Unfolding>, Memory>
    requires { AreKnown expanded.now.instances known.now producers.now }
    ensures { IfOk result (λ all. Unfolds expanded.now.instances producers.now all.items) }
{
    let mut all = just_nothing(alloc)?;
    for part in producers {
        unfold_part(alloc, expanded, known, &mut all, *part)?;
    }
    Ok(all)
}

/// All unfoldings of a list of alternatives, in order.
pub(crate) fn unfold_alternatives(
    alloc: Global,
    expanded: &Expanded,
    known: &[Sequence<Unfolding>],
    productions: &[InstanceProduction],
) -> Result<Vec<Unfolding>, Memory>
    requires { AreEachKnown expanded.now.instances known.now productions.now }
    ensures { IfOk result (λ all. UnfoldsEach expanded.now.instances productions.now all.items) }
{
    let mut all = Vec::new(alloc);
    for production in productions {
        let side = unfold_side(alloc, expanded, known, production.rhs.as_slice())?;
        add_own(&mut all, production.prec, side)?;
    }
    Ok(all)
}

fn no_unfoldings(alloc: Global, count: usize) -> Result<Vec<Sequence<Unfolding>>, Memory>
    ensures { IfOk result (λ known. length known.items ≡ count) }
{
    let mut known = Vec::new(alloc);
    while known.len() < count {
        known.push(Sequence::new(alloc))?;
    }
    Ok(known)
}

/// The unfoldings of an inline instance, if they are within the limits of a grammar, else none.
fn unfold_one(
    alloc: Global,
    expanded: &Expanded,
    sizing: &SizeTable,
    known: &mut Vec<Sequence<Unfolding>>,
    number: usize,
    last_use: Option<LastUse>,
) -> Result<Sequence<Unfolding>, Memory>
    requires ready { IsExpandedReady expanded.now }
    requires next { IsNextToUnfold expanded.now.instances sizing.now.sizes.items known.old.items number }
    requires last { (i : Row) → slice_get expanded.now.instances number ≡ Some i → IfSome last_use (IsInlineProducerOf expanded.now.instances i.productions) }
    ensures unfoldings { IfOk result (λ all. (us : List Unfolded) → UnfoldsPart expanded.now.instances (Part.Instance number) us → AreSmall us → all ≡ us) }
    ensures known { OnOk result (LacksOnlyMoved last_use known.old.items known.new.items) }
{
    if !is_small(sizing.sizes[number]) {
        return Ok(Sequence::new(alloc));
    }
    let productions = expanded.instances[number].productions.as_slice();
    let all = unfold_with(alloc, expanded, known, productions, last_use)?;
    Ok(Sequence::from_vec(all))
}

fn number_at(sizing: &SizeTable, place: usize) -> usize
    requires { place < length sizing.now.order.items }
    ensures { slice_get sizing.now.order.items place ≡ Some result }
{
    sizing.order[place] as usize
}

/// Makes the unfoldings of the instance at this position of the order, and drops those that are not used later.
fn unfold_next(
    alloc: Global,
    expanded: &Expanded,
    sizing: &SizeTable,
    last: &[usize],
    known: &mut Vec<Sequence<Unfolding>>,
    place: usize,
) -> Result<(), Memory>
    requires ready { IsExpandedReady expanded.now }
    requires sizing { IsSizeTable expanded.now.instances sizing.now }
    requires last { AreLastUses expanded.now.instances sizing.now.order.items last.now }
    requires at { place < length sizing.now.order.items }
    requires known { KnowsNeeded expanded.now.instances sizing.now.order.items last.now place known.old.items }
    ensures { OnOk result (KnowsNeeded expanded.now.instances sizing.now.order.items last.now (place + 1) known.new.items) }
{
    let number = number_at(sizing, place);
    let moved = last_use_of(expanded, known.as_slice(), last, place, number);
    let all = unfold_one(alloc, expanded, sizing, known, number, moved)?;
    known[number] = all;
    forget_inlined(alloc, expanded, last, known, number, place)
}

/// The unfoldings of each inline instance that is used by an instance that is not inline, if they are within the limits
/// of a grammar. Other unfoldings are dropped after their last use, or moved there, so that a chain of inline instances
/// holds one list at a time and copies none. Fails only if memory runs out.
pub(crate) fn unfold_inline(
    alloc: Global,
    expanded: &Expanded,
    sizing: &SizeTable,
) -> Result<Vec<Sequence<Unfolding>>, Memory>
    requires ready { IsExpandedReady expanded.now }
    requires sizing { IsSizeTable expanded.now.instances sizing.now }
    ensures { IfOk result (λ known. KnowsUsed expanded.now.instances sizing.now.order.items known.items) }
{
    let last = last_uses(alloc, expanded, sizing.order.as_slice())?;
    let mut known = no_unfoldings(alloc, expanded.instances.len())?;
    for place in 0..sizing.order.len() {
        unfold_next(alloc, expanded, sizing, &last, &mut known, place)?;
    }
    Ok(known)
}
