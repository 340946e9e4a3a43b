//! The closure of a kernel (Knuth 1965).
ghost use Rattle.std.specs.Prelude.{◌≡◌, ◌<◌, ◌↔◌, ℕ, length, vec_len, slice_get, Some, IfOk, OnOk};
ghost use Rattle.std.specs.List.{All, Contains};
ghost use Rattle.mh_grammar.specs.declared.types.Look.{Look as LookOf};
ghost use Rattle.mh_grammar.specs.Plain.{plain_of, rhs_of};
ghost use Rattle.mh_grammar.specs.ItemSets.{AreSameItems, Close};
ghost use Rattle.mh_items.specs.Fitting.{FitsSets};
ghost use Rattle.mh_items.specs.Firsts.{AreFirsts, AreNullableAndFirst};
ghost use Rattle.mh_items_kernels.specs.Kernels.{Holds, IsItemList, IsKernelItem};
ghost use Rattle.mh_items.specs.code.PendingLooks.{ArePendingLooks, HasNoLooks, AddsLooks};
ghost use Rattle.mh_items.specs.code.ClosureLooks.{MayFollowSymbol, IsItemLook, IsLookOfItems};

use crate::added::added_items;
use crate::first_sets::{Firsts, NullableAndFirst};
use crate::links::rest_of;
use crate::merging::merged;
use crate::pending_looks::PendingLooks;
use crate::spreading::spread;
use mh_grammar::{Grammar, Memory, Symbol};
use mh_items_kernels::{Closure, Kernel, KernelItem, passed_on, symbol_at, symbols_after_dot};
use mh_sets::TokenSet;
use std::alloc::Global;

/// Returns the closure of a kernel, rising (Knuth 1965). It fails only if there is no memory.
pub fn closure<const W: usize>(
    alloc: Global,
    grammar: &Grammar,
    firsts: &Firsts<W>,
    kernel: &Kernel<W>,
) -> Result<Closure<W>, Memory>
    requires fits { FitsSets W grammar.now }
    requires firsts { AreFirsts (plain_of grammar.now) firsts.now }
    requires kernel { IsItemList (plain_of grammar.now) kernel.now }
    ensures kernel { IfOk result (IsItemList (plain_of grammar.now)) }
    ensures exact { IfOk result (λ c. AreSameItems (Holds c) (Close (plain_of grammar.now) (Holds kernel.now))) }
{
    let mut asked = PendingLooks::new(alloc, grammar.nonterminals.len())?;
    closure_over(alloc, grammar, firsts, kernel, &mut asked)
}

/// Returns the closure of a kernel like `closure`, with scratch space for many closures: `asked` must have no looks,
/// and has none again on success. The time depends on the size of this closure, not on that of the grammar.
pub(crate) fn closure_over<const W: usize>(
    alloc: Global,
    grammar: &Grammar,
    firsts: &Firsts<W>,
    kernel: &Kernel<W>,
    asked: &mut PendingLooks<W>,
) -> Result<Closure<W>, Memory>
    requires fits { FitsSets W grammar.now }
    requires firsts { AreFirsts (plain_of grammar.now) firsts.now }
    requires kernel { IsItemList (plain_of grammar.now) kernel.now }
    requires nothing { HasNoLooks (length grammar.now.nonterminals) asked.old }
    ensures kernel { IfOk result (IsItemList (plain_of grammar.now)) }
    ensures exact { IfOk result (λ c. AreSameItems (Holds c) (Close (plain_of grammar.now) (Holds kernel.now))) }
    ensures nothing { IfOk result (λ _. HasNoLooks (length grammar.now.nonterminals) asked.new) }
{
    add_kernel_looks(grammar, &firsts.sets, kernel.items.as_slice(), asked)?;
    spread(grammar, firsts, asked)?;
    asked.sort_visited();
    let added = added_items(alloc, grammar, firsts, asked)?;
    asked.forget();
    merged(alloc, grammar, kernel.items.as_slice(), added.as_slice())
}

/// Records the looks that come from the items of a kernel.
pub(crate) fn add_kernel_looks<const W: usize>(
    grammar: &Grammar,
    sets: &NullableAndFirst<W>,
    items: &[KernelItem<W>],
    set: &mut PendingLooks<W>,
) -> Result<(), Memory>
    requires fits { FitsSets W grammar.now }
    requires sets { AreNullableAndFirst (plain_of grammar.now) sets.now }
    requires items { All (IsKernelItem (plain_of grammar.now)) items.now }
    requires table { ArePendingLooks set.old }
    requires size { vec_len set.old.looks ≡ length grammar.now.nonterminals }
    ensures { OnOk result (AddsLooks (IsLookOfItems (plain_of grammar.now) items.now) set.old set.new) }
{
    for item in items {
        add_item(grammar, sets, item, set)?;
    }
    Ok(())
}

/// Records the looks that come from one item, for the nonterminal at its dot.
fn add_item<const W: usize>(
    grammar: &Grammar,
    sets: &NullableAndFirst<W>,
    item: &KernelItem<W>,
    set: &mut PendingLooks<W>,
) -> Result<(), Memory>
    requires fits { FitsSets W grammar.now }
    requires sets { AreNullableAndFirst (plain_of grammar.now) sets.now }
    requires item { IsKernelItem (plain_of grammar.now) item.now }
    requires table { ArePendingLooks set.old }
    requires size { vec_len set.old.looks ≡ length grammar.now.nonterminals }
    ensures { OnOk result (AddsLooks (IsItemLook (plain_of grammar.now) item.now) set.old set.new) }
{
    match symbol_at(grammar, item.production, item.dot) {
        Some(Symbol::N(n)) => {
            let looks = looks_after_symbol(grammar, sets, item);
            set.add(n, &looks)
        }
        Some(Symbol::T(_)) => Ok(()),
        None => Ok(()),
    }
}

/// The looks that may follow the symbol at the dot of an item.
fn looks_after_symbol<const W: usize>(
    grammar: &Grammar,
    sets: &NullableAndFirst<W>,
    item: &KernelItem<W>,
) -> TokenSet<W>
    requires fits { FitsSets W grammar.now }
    requires sets { AreNullableAndFirst (plain_of grammar.now) sets.now }
    requires item { IsKernelItem (plain_of grammar.now) item.now }
    requires dot { item.now.dot < length (rhs_of (plain_of grammar.now) item.now.production) }
    ensures { (b : LookOf) → Contains result b ↔ MayFollowSymbol (plain_of grammar.now) item.now b }
{
    let rest = rest_of(sets, symbols_after_dot(grammar, item.production, item.dot));
    passed_on(&rest.tokens, rest.passes, &item.looks)
}
