//! The items that a closure adds to a kernel.
ghost use Rattle.std.specs.Prelude.{◌≡◌, ◌≤◌, ◌↔◌, ℕ, vec_len, length, IfOk};
ghost use Rattle.std.specs.List.{Contains};
ghost use Rattle.std.specs.List.Sorted.{IsStrictlyIncreasing};
ghost use Rattle.mh_grammar.specs.Plain.{plain_of};
ghost use Rattle.mh_items_kernels.specs.KernelTypes.{Kernel as KernelOf};
ghost use Rattle.mh_items_kernels.specs.Kernels.{IsItemList};
ghost use Rattle.mh_items.specs.Fitting.{FitsSets};
ghost use Rattle.mh_items.specs.Firsts.{AreFirsts};
ghost use Rattle.mh_items.specs.code.PendingLooks.{ArePendingLooks};
ghost use Rattle.mh_items.specs.code.ClosureLooks.{AreClosureLooks};
ghost use Rattle.mh_items.specs.code.AddedItems.{AreAddedItems, IsAddedProduction};

use crate::first_sets::Firsts;
use crate::pending_looks::PendingLooks;
use mh_grammar::{Grammar, Memory};
use mh_items_kernels::KernelItem;
use std::alloc::Global;

/// Returns the items that the closure adds: the productions of each nonterminal with looks, rising, each with dot 0 and
/// the looks of its nonterminal.
pub(crate) fn added_items<const W: usize>(
    alloc: Global,
    grammar: &Grammar,
    firsts: &Firsts<W>,
    set: &PendingLooks<W>,
) -> Result<Vec<KernelItem<W>>, Memory>
    requires fits { FitsSets W grammar.now }
    requires firsts { AreFirsts (plain_of grammar.now) firsts.now }
    requires table { ArePendingLooks set.now }
    requires size { vec_len set.now.looks ≡ length grammar.now.nonterminals }
    requires wanted { (k : KernelOf) × IsItemList (plain_of grammar.now) k × AreClosureLooks (plain_of grammar.now) k set.now }
    ensures kernel { IfOk result (λ items. IsItemList (plain_of grammar.now) (record { items = items.items })) }
    ensures exact { IfOk result (λ items. AreAddedItems (plain_of grammar.now) set.now items.items) }
{
    let numbers = added_productions(alloc, grammar, firsts, set)?;
    let starts = grammar.starts.len();
    let mut items = Vec::with_capacity(alloc, numbers.len())?;
    for number in numbers.as_slice() {
        let production = &grammar.productions[*number as usize - starts];
        items.push(KernelItem {
            production: *number,
            dot: 0,
            looks: set.looks[usize::from(production.lhs)].copied(),
        })?;
    }
    Ok(items)
}

/// Returns the numbers of the productions that the closure adds, strictly increasing.
fn added_productions<const W: usize>(
    alloc: Global,
    grammar: &Grammar,
    firsts: &Firsts<W>,
    set: &PendingLooks<W>,
) -> Result<Vec<u32>, Memory>
    requires few { W ≤ 8 }
    requires firsts { AreFirsts (plain_of grammar.now) firsts.now }
    requires table { ArePendingLooks set.now }
    requires size { vec_len set.now.looks ≡ length grammar.now.nonterminals }
    ensures rising { IfOk result (λ v. IsStrictlyIncreasing v.items) }
    ensures exact { IfOk result (λ v. (p : ℕ) → Contains v.items p ↔ IsAddedProduction (plain_of grammar.now) set.now p) }
{
    // Only the contract uses the grammar.
    let _grammar = grammar;
    let mut numbers = Vec::new(alloc);
    for n in set.queue.as_slice() {
        numbers.extend_from_slice(firsts.productions[usize::from(*n)].as_slice())?;
    }
    numbers.sort_unstable();
    numbers.dedup();
    Ok(numbers)
}
