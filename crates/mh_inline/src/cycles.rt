//! The search for inline instances that reach themselves.
ghost use Rattle.std.specs.Prelude.{◌≡◌, ◌<◌, ◌↔◌, ◌∷◌, [], true, false, length, replicate, IfNone, IfOk, OnOk, IsTrue, MatchOption};
ghost use Rattle.mh_inline_unfold.specs.Instances.{is_inlined, Reaches};
ghost use Rattle.mh_inline.specs.Cycles.{HasNoCycle, IsFirstCyclicAt};
ghost use Rattle.mh_inline_unfold.specs.code.UsedInstances.{OccursInProducers, OccursInAlternatives, UsesInline};
ghost use Rattle.mh_inline.specs.code.FoundInstances.{AddsFound, FlagsMatchQueue, IsEqualTo, IsFoundTable};
ghost use Rattle.mh_inline.specs.code.InstanceRanks.{AreRanked};
ghost use Rattle.mh_inline_unfold.specs.code.Sizes.{AreAllSized, IsSizeFixedPoint, IsSizeTable};

use crate::ranks::{are_ranked, is_on_no_cycle};
use mh_grammar::Memory;
use mh_inline_unfold::{SizeTable, inline_part, is_inline};
use mh_rules::{Expanded, InstanceProduction, Part};
use std::alloc::Global;

/// The instances that a breadth-first search has found: a flag for each instance, and a queue in the order of finding.
#[derive(Drop)]
pub struct FoundInstances {
    pub flags: Vec<bool>,
    pub queue: Vec<usize>,
}

pub(crate) fn nothing_found(alloc: Global, count: usize) -> Result<FoundInstances, Memory>
    ensures flags { IfOk result (λ f. f.flags.items ≡ replicate count false) }
    ensures queue { IfOk result (λ f. f.queue.items ≡ []) }
{
    Ok(FoundInstances {
        flags: vec![in alloc; false; count]?,
        queue: Vec::new(alloc),
    })
}

fn add_one(found: &mut FoundInstances, number: usize) -> Result<(), Memory>
    requires number { number < length found.old.flags.items }
    requires sets { FlagsMatchQueue found.old }
    ensures { OnOk result (AddsFound (IsEqualTo number) found.old found.new) }
{
    if !found.flags[number] {
        found.queue.push(number)?;
        found.flags[number] = true;
    }
    Ok(())
}

fn add_part(expanded: &Expanded, part: Part, found: &mut FoundInstances) -> Result<(), Memory>
    requires { IsFoundTable expanded.now.instances found.old }
    ensures { OnOk result (AddsFound (OccursInProducers expanded.now.instances (part ∷ [])) found.old found.new) }
{
    match inline_part(expanded, part) {
        Some(number) => add_one(found, number),
        None => Ok(()),
    }
}

fn add_side(
    expanded: &Expanded,
    producers: &[Part],
    found: &mut FoundInstances,
) -> Result<(), Memory>
    requires { IsFoundTable expanded.now.instances found.old }
    ensures { OnOk result (AddsFound (OccursInProducers expanded.now.instances producers.now) found.old found.new) }
{
    for part in producers {
        add_part(expanded, *part, found)?;
    }
    Ok(())
}

fn add_alternatives(
    expanded: &Expanded,
    productions: &[InstanceProduction],
    found: &mut FoundInstances,
) -> Result<(), Memory>
    requires { IsFoundTable expanded.now.instances found.old }
    ensures { OnOk result (AddsFound (OccursInAlternatives expanded.now.instances productions.now) found.old found.new) }
{
    for production in productions {
        add_side(expanded, production.rhs.as_slice(), found)?;
    }
    Ok(())
}

/// Adds the inline instances that an instance uses to those found.
pub(crate) fn add_inlined(
    expanded: &Expanded,
    number: usize,
    found: &mut FoundInstances,
) -> Result<(), Memory>
    requires table { IsFoundTable expanded.now.instances found.old }
    requires number { number < length expanded.now.instances }
    ensures { OnOk result (AddsFound (UsesInline expanded.now.instances number) found.old found.new) }
{
    add_alternatives(
        expanded,
        expanded.instances[number].productions.as_slice(),
        found,
    )
}

/// Whether an inline instance reaches itself through inline instances.
fn is_cyclic(alloc: Global, expanded: &Expanded, number: usize) -> Result<bool, Memory>
    requires { is_inlined expanded.now.instances number ≡ true }
    ensures { IfOk result (λ cyclic. IsTrue cyclic ↔ Reaches expanded.now.instances number number) }
{
    let mut found = nothing_found(alloc, expanded.instances.len())?;
    add_inlined(expanded, number, &mut found)?;
    let mut done = 0;
    while done < found.queue.len() {
        let next = found.queue[done];
        add_inlined(expanded, next, &mut found)?;
        done += 1;
    }
    Ok(found.flags[number])
}

/// Whether an instance reaches itself. No search is made if the instance is not inline, or has a size, or is on no
/// cycle according to the ranks.
fn reaches_itself(
    alloc: Global,
    expanded: &Expanded,
    sizing: &SizeTable,
    ranks: &[usize],
    number: usize,
) -> Result<bool, Memory>
    requires sizing { IsSizeTable expanded.now.instances sizing.now }
    requires ranks { AreRanked expanded.now.instances ranks.now }
    requires number { number < length expanded.now.instances }
    ensures { IfOk result (λ cyclic. IsTrue cyclic ↔ Reaches expanded.now.instances number number) }
{
    if !is_inline(expanded, number) || sizing.sizes[number].is_some() {
        return Ok(false);
    }
    if is_on_no_cycle(alloc, expanded, ranks, number)? {
        return Ok(false);
    }
    is_cyclic(alloc, expanded, number)
}

/// The first inline instance that reaches itself. If the ranks are those of the strongly connected components, then
/// only this instance is searched from.
fn first_cyclic_by(
    alloc: Global,
    expanded: &Expanded,
    sizing: &SizeTable,
    ranks: &[usize],
) -> Result<Option<usize>, Memory>
    requires sizing { IsSizeTable expanded.now.instances sizing.now }
    requires settled { IsSizeFixedPoint expanded.now.instances sizing.now.sizes.items }
    requires ranks { AreRanked expanded.now.instances ranks.now }
    ensures first { IfOk result (λ found. MatchOption found (HasNoCycle expanded.now) (IsFirstCyclicAt expanded.now)) }
    ensures sized { IfOk result (λ found. IfNone found (AreAllSized expanded.now.instances sizing.now.sizes.items)) }
{
    for number in 0..expanded.instances.len() {
        if reaches_itself(alloc, expanded, sizing, ranks, number)? {
            return Ok(Some(number));
        }
    }
    Ok(None)
}

/// The first inline instance that reaches itself, for any list of numbers as ranks. If the numbers are not ranks, they
/// are not used. Fails only if memory runs out.
pub(crate) fn first_cyclic(
    alloc: Global,
    expanded: &Expanded,
    sizing: &SizeTable,
    ranks: &[usize],
) -> Result<Option<usize>, Memory>
    requires sizing { IsSizeTable expanded.now.instances sizing.now }
    requires settled { IsSizeFixedPoint expanded.now.instances sizing.now.sizes.items }
    ensures first { IfOk result (λ found. MatchOption found (HasNoCycle expanded.now) (IsFirstCyclicAt expanded.now)) }
    ensures sized { IfOk result (λ found. IfNone found (AreAllSized expanded.now.instances sizing.now.sizes.items)) }
{
    if are_ranked(alloc, expanded, ranks)? {
        first_cyclic_by(alloc, expanded, sizing, ranks)
    } else {
        first_cyclic_by(alloc, expanded, sizing, &[])
    }
}
