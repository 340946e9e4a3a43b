//! Moves unfoldings at their last use: the unfoldings of a producer that no later instance needs become part of the
//! result without being copied. So each link in a chain of inline instances costs only the symbols that it adds.
ghost use Rattle.std.specs.Prelude.{◌≡◌, ◌<◌, ◌≤◌, ◌⊎◌, ◌++◌, ◌+◌, [], ◌∷◌, Some, suc, true, false, length, map, drop, slice_get, slice_set, slice_index_or, take, IfOk, IfSome, OnOk};
ghost use Rattle.mh_rules.specs.declared.instances.Instance.{Instance as Row};
ghost use Rattle.mh_inline_unfold.specs.Instances.{is_inlined};
ghost use Rattle.mh_inline.specs.code.KnownUnfoldings.{AreEachKnown, AreKnown, IsKnown};
ghost use Rattle.mh_inline.specs.code.MovableProducers.{IsCandidate, IsLastUseIn, IsInlineProducerOf, IsLastUse, LacksOnlyMoved};
ghost use Rattle.mh_inline_unfold.specs.Unfoldings.{with_own_prec, Unfolds, UnfoldsEach};

use crate::unfoldings::{unfold_alternatives, unfold_side};
use mh_grammar::{Memory, Sequence};
use mh_inline_unfold::{Unfolding, add_own, inline_part, put_after, put_in_front, with_own};
use mh_rules::{Expanded, InstanceProduction, Part, Prec};
use std::alloc::Global;
use std::mem;

/// A producer whose unfoldings no later instance needs: the position of its alternative, its position there, and the
/// number of its instance.
#[derive(Clone, Copy)]
pub struct LastUse {
    pub alternative: usize,
    pub producer: usize,
    pub number: usize,
}

/// Whether an instance is used after this position of the order.
fn is_needed_after(last: &[usize], number: usize, place: usize) -> bool
    ensures { result ≡ false → slice_index_or last.now number 0 ≤ place }
{
    match last.get(number) {
        Some(at) => *at > place,
        None => false,
    }
}

/// The producer, if it is inline and is not used after this position of the order.
fn candidate(
    expanded: &Expanded,
    last: &[usize],
    place: usize,
    alternative: usize,
    producer: usize,
    part: Part,
) -> Option<LastUse>
    ensures { IfSome result (IsCandidate expanded.now.instances last.now place alternative producer part) }
{
    let number = inline_part(expanded, part)?;
    if is_needed_after(last, number, place) {
        return None;
    }
    Some(LastUse {
        alternative,
        producer,
        number,
    })
}

fn count_of(known: &[Sequence<Unfolding>], number: usize) -> usize {
    match known.get(number) {
        Some(unfoldings) => unfoldings.len(),
        None => 0,
    }
}

/// Returns the one of two producers that has more unfoldings. To move the longest list saves the most copies.
fn larger(
    known: &[Sequence<Unfolding>],
    best: Option<LastUse>,
    next: Option<LastUse>,
) -> Option<LastUse>
    ensures { (result ≡ best) ⊎ (result ≡ next) }
{
    match best {
        Some(first) => match next {
            Some(second) if count_of(known, first.number) < count_of(known, second.number) => next,
            _ => best,
        },
        None => next,
    }
}

/// The producer with the most unfoldings among those of an alternative that are not used later.
fn last_use_in(
    expanded: &Expanded,
    known: &[Sequence<Unfolding>],
    last: &[usize],
    place: usize,
    alternative: usize,
    producers: &[Part],
) -> Option<LastUse>
    ensures { IfSome result (IsLastUseIn expanded.now.instances last.now place alternative producers.now) }
{
    let mut best = None;
    for (producer, part) in producers.iter().enumerate() {
        let next = candidate(expanded, last, place, alternative, producer, *part);
        best = larger(known, best, next);
    }
    best
}

/// The producer with the most unfoldings among those of these alternatives that are not used later.
fn last_use(
    expanded: &Expanded,
    known: &[Sequence<Unfolding>],
    last: &[usize],
    place: usize,
    productions: &[InstanceProduction],
) -> Option<LastUse>
    ensures { IfSome result (IsLastUse expanded.now.instances last.now place productions.now) }
{
    let mut best = None;
    for (alternative, production) in productions.iter().enumerate() {
        let producers = production.rhs.as_slice();
        let next = last_use_in(expanded, known, last, place, alternative, producers);
        best = larger(known, best, next);
    }
    best
}

/// The producer with the most unfoldings among those of an instance that are not used later.
pub(crate) fn last_use_of(
    expanded: &Expanded,
    known: &[Sequence<Unfolding>],
    last: &[usize],
    place: usize,
    number: usize,
) -> Option<LastUse>
    requires { number < length expanded.now.instances }
    ensures { (i : Row) → slice_get expanded.now.instances number ≡ Some i → IfSome result (IsLastUse expanded.now.instances last.now place i.productions) }
{
    let productions = expanded.instances[number].productions.as_slice();
    last_use(expanded, known, last, place, productions)
}

fn front_to<T>(items: &[T], at: usize) -> &[T]
    requires { at < length items.now }
    ensures { result.now ≡ take at items.now }
{
    &items[..at]
}

fn rest_from<T>(items: &[T], at: usize) -> &[T]
    requires { at < length items.now }
    ensures { result.now ≡ drop (suc at) items.now }
{
    &items[at + 1..]
}

/// Removes the unfoldings of an instance from the list `known` and returns them.
fn moved_out(alloc: Global, known: &mut Vec<Sequence<Unfolding>>, number: usize) -> Vec<Unfolding>
    requires { number < length known.old.items }
    ensures taken { slice_get known.old.items number ≡ Some result.items }
    ensures left { known.new.items ≡ slice_set known.old.items number [] }
{
    mem::replace(&mut known[number], Sequence::new(alloc)).into_vec()
}

/// The unfoldings of some producers followed by an inline one, whose unfoldings are moved.
fn unfold_to_last(
    alloc: Global,
    expanded: &Expanded,
    known: &mut Vec<Sequence<Unfolding>>,
    front: &[Part],
    number: usize,
) -> Result<Vec<Unfolding>, Memory>
    requires front { AreKnown expanded.now.instances known.old.items front.now }
    requires last { IsKnown expanded.now.instances known.old.items number }
    ensures unfolds { IfOk result (λ all. Unfolds expanded.now.instances (front.now ++ Part.Instance number ∷ []) all.items) }
    ensures left { OnOk result (known.new.items ≡ slice_set known.old.items number []) }
{
    if front.is_empty() {
        return Ok(moved_out(alloc, known, number));
    }
    let firsts = unfold_side(alloc, expanded, known, front)?;
    let mut all = moved_out(alloc, known, number);
    put_in_front(alloc, firsts.as_slice(), &mut all)?;
    Ok(all)
}

/// The unfoldings of the producers of an alternative, where those of one producer are moved.
fn unfold_around(
    alloc: Global,
    expanded: &Expanded,
    known: &mut Vec<Sequence<Unfolding>>,
    producers: &[Part],
    last_use: LastUse,
) -> Result<Vec<Unfolding>, Memory>
    requires known { AreKnown expanded.now.instances known.old.items producers.now }
    requires at { slice_get producers.now last_use.producer ≡ Some (Part.Instance last_use.number) }
    requires inlined { is_inlined expanded.now.instances last_use.number ≡ true }
    ensures unfolds { IfOk result (λ all. Unfolds expanded.now.instances producers.now all.items) }
    ensures left { OnOk result (known.new.items ≡ slice_set known.old.items last_use.number []) }
{
    let front = front_to(producers, last_use.producer);
    let behind = rest_from(producers, last_use.producer);
    if behind.is_empty() {
        return unfold_to_last(alloc, expanded, known, front, last_use.number);
    }
    let seconds = unfold_side(alloc, expanded, known, behind)?;
    let mut all = unfold_to_last(alloc, expanded, known, front, last_use.number)?;
    put_after(alloc, &mut all, seconds.as_slice())?;
    Ok(all)
}

/// Appends unfoldings to others, with the `%prec` of the alternative whose producers they unfold.
fn append_with_prec(
    mut all: Vec<Unfolding>,
    prec: Prec,
    unfoldings: Vec<Unfolding>,
) -> Result<Vec<Unfolding>, Memory>
    ensures { IfOk result (λ more. more.items ≡ all.items ++ map (with_own_prec prec) unfoldings.items) }
{
    if all.is_empty() {
        return Ok(with_own(prec, unfoldings));
    }
    add_own(&mut all, prec, unfoldings)?;
    Ok(all)
}

/// The unfoldings of the alternatives up to the one with the moved producer.
fn unfold_to_alternative(
    alloc: Global,
    expanded: &Expanded,
    known: &mut Vec<Sequence<Unfolding>>,
    productions: &[InstanceProduction],
    last_use: LastUse,
) -> Result<Vec<Unfolding>, Memory>
    requires known { AreEachKnown expanded.now.instances known.old.items productions.now }
    requires last { IsInlineProducerOf expanded.now.instances productions.now last_use }
    ensures unfolds { IfOk result (λ all. UnfoldsEach expanded.now.instances (take (last_use.alternative + 1) productions.now) all.items) }
    ensures left { OnOk result (known.new.items ≡ slice_set known.old.items last_use.number []) }
{
    let production = &productions[last_use.alternative];
    let front = front_to(productions, last_use.alternative);
    let before = unfold_alternatives(alloc, expanded, known, front)?;
    let side = unfold_around(alloc, expanded, known, production.rhs.as_slice(), last_use)?;
    append_with_prec(before, production.prec, side)
}

/// The unfoldings of these alternatives, where those of one producer are moved.
fn unfold_moved(
    alloc: Global,
    expanded: &Expanded,
    known: &mut Vec<Sequence<Unfolding>>,
    productions: &[InstanceProduction],
    last_use: LastUse,
) -> Result<Vec<Unfolding>, Memory>
    requires known { AreEachKnown expanded.now.instances known.old.items productions.now }
    requires last { IsInlineProducerOf expanded.now.instances productions.now last_use }
    ensures unfolds { IfOk result (λ all. UnfoldsEach expanded.now.instances productions.now all.items) }
    ensures left { OnOk result (known.new.items ≡ slice_set known.old.items last_use.number []) }
{
    let rest = rest_from(productions, last_use.alternative);
    let behind = unfold_alternatives(alloc, expanded, known, rest)?;
    let mut all = unfold_to_alternative(alloc, expanded, known, productions, last_use)?;
    add_own(&mut all, Prec::Absent, behind)?;
    Ok(all)
}

/// The unfoldings of these alternatives; the unfoldings of the given producer are moved, if there is one.
pub(crate) fn unfold_with(
    alloc: Global,
    expanded: &Expanded,
    known: &mut Vec<Sequence<Unfolding>>,
    productions: &[InstanceProduction],
    last_use: Option<LastUse>,
) -> Result<Vec<Unfolding>, Memory>
    requires known { AreEachKnown expanded.now.instances known.old.items productions.now }
    requires last { IfSome last_use (IsInlineProducerOf expanded.now.instances productions.now) }
    ensures unfolds { IfOk result (λ all. UnfoldsEach expanded.now.instances productions.now all.items) }
    ensures known { OnOk result (LacksOnlyMoved last_use known.old.items known.new.items) }
{
    match last_use {
        Some(last_use) => unfold_moved(alloc, expanded, known, productions, last_use),
        None => unfold_alternatives(alloc, expanded, known, productions),
    }
}
