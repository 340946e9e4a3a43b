//! Operations on lists of unfoldings: concatenation of each with each, and the `%prec` of the alternative into which
//! unfoldings are inlined.
ghost use Rattle.std.specs.Prelude.{◌≡◌, ◌++◌, ◌∷◌, [], map, IfOk, OnOk};
ghost use Rattle.mh_inline_unfold.specs.Unfoldings.{choices, joined, empty_unfolding, unfolding_of_part, with_own_prec, rightmost};

use crate::double_ended::Deque;
use crate::unfolding::Unfolding;
use mh_grammar::Memory;
use mh_rules::{Part, Prec};
use std::alloc::Global;

/// The `%prec` further to the right, if it is given, else the other.
pub fn rightmost_prec(left: Prec, right: Prec) -> Prec
    ensures { result ≡ rightmost left right }
{
    match right {
        Prec::Absent => left,
        Prec::Given(level) => Prec::Given(level),
    }
}

/// Appends the concatenation of two unfoldings to the list.
fn add_joined(
    alloc: Global,
    all: &mut Vec<Unfolding>,
    left: &Unfolding,
    right: &Unfolding,
) -> Result<(), Memory>
    ensures { OnOk result (all.new.items ≡ all.old.items ++ joined left.now right.now ∷ []) }
{
    all.push(Unfolding {
        rhs: left.rhs.joined(alloc, &right.rhs)?,
        prec: rightmost_prec(left.prec, right.prec),
    })?;
    Ok(())
}

/// Appends the concatenations of the first unfolding with each of the second list.
fn add_joined_with_each(
    alloc: Global,
    all: &mut Vec<Unfolding>,
    first: &Unfolding,
    seconds: &[Unfolding],
) -> Result<(), Memory>
    ensures { OnOk result (all.new.items ≡ all.old.items ++ map (joined first.now) seconds.now) }
{
    for second in seconds {
        add_joined(alloc, all, first, second)?;
    }
    Ok(())
}

/// The concatenations of each unfolding of the first list with each of the second; the choice from the first list
/// varies slowest.
fn all_choices(
    alloc: Global,
    left: &[Unfolding],
    right: &[Unfolding],
) -> Result<Vec<Unfolding>, Memory>
    ensures { IfOk result (λ all. all.items ≡ choices left.now right.now) }
{
    let mut all = Vec::new(alloc);
    for first in left {
        add_joined_with_each(alloc, &mut all, first, right)?;
    }
    Ok(all)
}

/// Appends the symbols of another unfolding.
fn append_to(first: &mut Unfolding, other: &Unfolding) -> Result<(), Memory>
    ensures { OnOk result (first.new ≡ joined first.old other.now) }
{
    first.prec = rightmost_prec(first.prec, other.prec);
    first.rhs.put_after(&other.rhs)
}

/// Prepends the symbols of another unfolding.
fn prepend_to(last: &mut Unfolding, other: &Unfolding) -> Result<(), Memory>
    ensures { OnOk result (last.new ≡ joined other.now last.old) }
{
    last.prec = rightmost_prec(other.prec, last.prec);
    last.rhs.put_in_front(&other.rhs)
}

fn append_to_each(all: &mut [Unfolding], other: &Unfolding) -> Result<(), Memory>
    ensures { OnOk result (all.new ≡ map (λ u. joined u other.now) all.old) }
{
    for choice in all.iter_mut() {
        append_to(choice, other)?;
    }
    Ok(())
}

fn prepend_to_each(all: &mut [Unfolding], other: &Unfolding) -> Result<(), Memory>
    ensures { OnOk result (all.new ≡ map (joined other.now) all.old) }
{
    for choice in all.iter_mut() {
        prepend_to(choice, other)?;
    }
    Ok(())
}

/// Replaces the list by the concatenations of its unfoldings with each of the second list; the choice from the first
/// list varies slowest. If the second list has one unfolding, the unfoldings are extended in place. Fails only if
/// memory runs out.
pub fn put_after(
    alloc: Global,
    all: &mut Vec<Unfolding>,
    seconds: &[Unfolding],
) -> Result<(), Memory>
    ensures { OnOk result (all.new.items ≡ choices all.old.items seconds.now) }
{
    match seconds {
        [second] => append_to_each(all, second),
        _ => {
            *all = all_choices(alloc, all.as_slice(), seconds)?;
            Ok(())
        }
    }
}

/// Replaces the list by the concatenations of each of the first list with its unfoldings; the choice from the first
/// list varies slowest. If the first list has one unfolding, the unfoldings are extended in place. Fails only if memory
/// runs out.
pub fn put_in_front(
    alloc: Global,
    firsts: &[Unfolding],
    all: &mut Vec<Unfolding>,
) -> Result<(), Memory>
    ensures { OnOk result (all.new.items ≡ choices firsts.now all.old.items) }
{
    match firsts {
        [first] => prepend_to_each(all, first),
        _ => {
            *all = all_choices(alloc, firsts, all.as_slice())?;
            Ok(())
        }
    }
}

/// The unfolding of a producer that is not inline.
fn just(alloc: Global, part: Part) -> Result<Unfolding, Memory>
    ensures { IfOk result (λ u. u ≡ unfolding_of_part part) }
{
    let mut rhs = Deque::new(alloc);
    rhs.push_back(part)?;
    Ok(Unfolding {
        rhs,
        prec: Prec::Absent,
    })
}

/// Appends a producer that is not inline to each unfolding. Fails only if memory runs out.
pub fn put_part(alloc: Global, all: &mut Vec<Unfolding>, part: Part) -> Result<(), Memory>
    ensures { OnOk result (all.new.items ≡ choices all.old.items (unfolding_of_part part ∷ [])) }
{
    let last = just(alloc, part)?;
    append_to_each(all, &last)
}

/// The one unfolding of an empty list of producers. Fails only if memory runs out.
pub fn just_nothing(alloc: Global) -> Result<Vec<Unfolding>, Memory>
    ensures { IfOk result (λ all. all.items ≡ empty_unfolding ∷ []) }
{
    let mut all = Vec::new(alloc);
    all.push(Unfolding {
        rhs: Deque::new(alloc),
        prec: Prec::Absent,
    })?;
    Ok(all)
}

fn own_each(all: &mut [Unfolding], prec: Prec)
    ensures { all.new ≡ map (with_own_prec prec) all.old }
{
    for choice in all.iter_mut() {
        choice.prec = rightmost_prec(choice.prec, prec);
    }
}

/// The unfoldings with the `%prec` of the alternative whose producers they unfold; it overrides theirs.
pub fn with_own(prec: Prec, mut unfoldings: Vec<Unfolding>) -> Vec<Unfolding>
    ensures { result.items ≡ map (with_own_prec prec) unfoldings.items }
{
    match prec {
        Prec::Absent => unfoldings,
        Prec::Given(_) => {
            own_each(&mut unfoldings, prec);
            unfoldings
        }
    }
}

/// Appends unfoldings to a list, with the `%prec` of the alternative whose producers they unfold. Fails only if memory
/// runs out.
pub fn add_own(
    all: &mut Vec<Unfolding>,
    prec: Prec,
    unfoldings: Vec<Unfolding>,
) -> Result<(), Memory>
    ensures { OnOk result (all.new.items ≡ all.old.items ++ map (with_own_prec prec) unfoldings.items) }
{
    let mut added = with_own(prec, unfoldings);
    all.append(&mut added)?;
    Ok(())
}
