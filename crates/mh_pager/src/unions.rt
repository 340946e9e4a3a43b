//! The join of two kernels with one core.
ghost use Rattle.std.specs.Prelude.{◌≡◌, ◌<◌, ◌≤◌, length, IfOk};
ghost use Rattle.mh_grammar.specs.Plain.{PlainGrammar, plain_of};
ghost use Rattle.mh_items_kernels.specs.Kernels.{Holds, IsItemList};
ghost use Rattle.mh_pager.specs.WeakCompatibility.{HaveSameCore, IsJoin};

use mh_grammar::{Grammar, Memory, Sequence};
use mh_items_kernels::{Kernel, copied_item, joined_item};
use std::alloc::Global;

/// The kernel with the looks of two kernels with one core.
pub(crate) fn joined<const W: usize>(
    alloc: Global,
    grammar: &Grammar,
    left: &Kernel<W>,
    right: &Kernel<W>,
) -> Result<Kernel<W>, Memory>
    requires few { W ≤ 8 }
    requires left { IsItemList (plain_of grammar.now) left.now }
    requires right { IsItemList (plain_of grammar.now) right.now }
    requires core { HaveSameCore (Holds left.now) (Holds right.now) }
    ensures kernel { IfOk result (IsItemList (plain_of grammar.now)) }
    ensures exact { IfOk result (λ j. IsJoin (Holds left.now) (Holds right.now) (Holds j)) }
{
    // Only the contract uses the grammar.
    let _grammar = grammar;
    let ours = left.items.as_slice();
    let theirs = right.items.as_slice();
    let mut items = Vec::with_capacity(alloc, ours.len())?;
    for i in 0..ours.len() {
        items.push(joined_item(&ours[i], &theirs[i]))?;
    }
    Ok(Kernel {
        items: Sequence::from_vec(items),
    })
}

/// Returns a copy of a kernel. It fails only if there is no memory.
pub(crate) fn copied<const W: usize>(alloc: Global, kernel: &Kernel<W>) -> Result<Kernel<W>, Memory>
    requires { W ≤ 8 }
    ensures { IfOk result (λ k. k ≡ kernel.now) }
{
    let items = kernel.items.as_slice();
    let mut all = Vec::with_capacity(alloc, items.len())?;
    for item in items {
        all.push(copied_item(item))?;
    }
    Ok(Kernel {
        items: Sequence::from_vec(all),
    })
}
