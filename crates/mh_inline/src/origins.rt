//! The alternatives of the instances that are not inline, in the order of their productions.
ghost use Rattle.std.specs.Prelude.{◌≡◌, ◌+◌, ◌<◌, ◌≤◌, false, length, IfOk, OnOk};
ghost use Rattle.mh_inline_unfold.specs.Instances.{is_inlined};
ghost use Rattle.mh_rules.specs.Ready.{IsExpandedReady};
ghost use Rattle.mh_inline_unfold.specs.FileRanks.{rank_of};
ghost use Rattle.mh_inline.specs.Kept.{AreOrigins};
ghost use Rattle.mh_inline.specs.code.NumbersAndOrigins.{AreOriginsBelow};
ghost use Rattle.mh_rules.specs.Limits.{max_instances};

use mh_grammar::Memory;
use mh_inline_unfold::{is_inline, rank};
use mh_rules::{Expanded, InstanceProduction};
use std::alloc::{AllocError, Global};
use std::collections::BTreeSet;

/// The alternative from which productions are made, by the four numbers that give its order: the rank of its file, its
/// position in the file, the number of its instance, and its position among the alternatives of the instance.
#[derive(Clone, Copy, PartialEq, Eq, PartialOrd, Ord)]
pub struct Origin {
    pub rank: u64,
    pub place: u64,
    pub instance: u32,
    pub alternative: u64,
}

fn origin_of(number: u32, alternative: u64, production: &InstanceProduction) -> Origin
    ensures { result ≡ record { rank = rank_of production.now.file; place = production.now.place; instance = number; alternative = alternative } }
{
    Origin {
        rank: rank(production.file),
        place: production.place,
        instance: number,
        alternative,
    }
}

/// Inserts the alternatives of an instance.
fn add_origins(
    expanded: &Expanded,
    number: usize,
    origins: &mut BTreeSet<Origin>,
) -> Result<(), Memory>
    requires few { length expanded.now.instances ≤ max_instances }
    requires number { number < length expanded.now.instances }
    requires kept { is_inlined expanded.now.instances number ≡ false }
    requires below { AreOriginsBelow expanded.now.instances number 0 origins.old.keys }
    ensures { OnOk result (AreOriginsBelow expanded.now.instances (number + 1) 0 origins.new.keys) }
{
    let productions = expanded.instances[number].productions.as_slice();
    for (alternative, production) in productions.iter().enumerate() {
        origins.insert(origin_of(number as u32, alternative as u64, production))?;
    }
    Ok(())
}

fn in_order(alloc: Global, origins: BTreeSet<Origin>) -> Result<Vec<Origin>, AllocError>
    ensures { IfOk result (λ v. v.items ≡ origins.keys) }
{
    origins.into_iter().collect(alloc)
}

/// The alternatives of the instances that are not inline, in the order of their productions. Fails only if memory runs
/// out.
pub(crate) fn origins_of(alloc: Global, expanded: &Expanded) -> Result<Vec<Origin>, Memory>
    requires { length expanded.now.instances ≤ max_instances }
    ensures { IfOk result (λ v. AreOrigins expanded.now.instances v.items) }
{
    let mut origins = BTreeSet::new(alloc);
    for number in 0..expanded.instances.len() {
        if !is_inline(expanded, number) {
            add_origins(expanded, number, &mut origins)?;
        }
    }
    Ok(in_order(alloc, origins)?)
}
