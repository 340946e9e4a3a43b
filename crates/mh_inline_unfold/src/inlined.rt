//! The inline instances that occur in the alternatives of an instance, as a list.
ghost use Rattle.std.specs.Prelude.{◌<◌, ◌↔◌, ◌∷◌, [], ℕ, length, IfOk, OnOk};
ghost use Rattle.std.specs.List.{All, Contains};
ghost use Rattle.mh_inline_unfold.specs.code.UsedInstances.{OccursInProducers, OccursInAlternatives, UsesInline, AddsToList};

use crate::instances::inline_part;
use mh_grammar::Memory;
use mh_rules::{Expanded, InstanceProduction, Part};
use std::alloc::Global;

fn list_part(expanded: &Expanded, part: Part, list: &mut Vec<usize>) -> Result<(), Memory>
    ensures { OnOk result (AddsToList (OccursInProducers expanded.now.instances (part ∷ [])) list.old.items list.new.items) }
{
    match inline_part(expanded, part) {
        Some(number) => {
            list.push(number)?;
            Ok(())
        }
        None => Ok(()),
    }
}

fn list_side(expanded: &Expanded, producers: &[Part], list: &mut Vec<usize>) -> Result<(), Memory>
    ensures { OnOk result (AddsToList (OccursInProducers expanded.now.instances producers.now) list.old.items list.new.items) }
{
    for part in producers {
        list_part(expanded, *part, list)?;
    }
    Ok(())
}

fn list_alternatives(
    expanded: &Expanded,
    productions: &[InstanceProduction],
    list: &mut Vec<usize>,
) -> Result<(), Memory>
    ensures { OnOk result (AddsToList (OccursInAlternatives expanded.now.instances productions.now) list.old.items list.new.items) }
{
    for production in productions {
        list_side(expanded, production.rhs.as_slice(), list)?;
    }
    Ok(())
}

/// The inline instances among the producers of an instance, once for each occurrence. Fails only if memory runs out.
pub fn inlined_in(alloc: Global, expanded: &Expanded, number: usize) -> Result<Vec<usize>, Memory>
    requires { number < length expanded.now.instances }
    ensures exact { IfOk result (λ found. (m : ℕ) → Contains found.items m ↔ UsesInline expanded.now.instances number m) }
    ensures within { IfOk result (λ found. All (λ m. m < length expanded.now.instances) found.items) }
{
    let mut list = Vec::new(alloc);
    let productions = expanded.instances[number].productions.as_slice();
    list_alternatives(expanded, productions, &mut list)?;
    Ok(list)
}
