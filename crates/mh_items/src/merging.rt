//! The union of two rising lists of items.
ghost use Rattle.std.specs.Prelude.{◌≡◌, ◌<◌, ◌≤◌, ◌+◌, ◌⊎◌, List, [], ◌∷◌, ◌++◌, length, IfOk};
ghost use Rattle.mh_grammar.specs.Plain.{plain_of};
ghost use Rattle.mh_items_kernels.specs.Kernels.{IsItemList};
ghost use Rattle.mh_items_kernels.specs.KernelTypes.{KernelItem as ItemOf};
ghost use Rattle.mh_items.specs.Fitting.{FitsSets};
ghost use Rattle.mh_items.specs.code.ItemUnion.{IsItemUnion, IsUnionSoFar, HasNextItem, item_order};

use mh_grammar::{Grammar, Memory, Sequence};
use mh_items_kernels::{Closure, KernelItem, copied_item, joined_item};
use std::alloc::Global;
use std::cmp::Ordering;

/// Returns the items of both lists, rising; two items with the same production and dot become one item with the looks
/// of both.
pub(crate) fn merged<const W: usize>(
    alloc: Global,
    grammar: &Grammar,
    left: &[KernelItem<W>],
    right: &[KernelItem<W>],
) -> Result<Closure<W>, Memory>
    requires fits { FitsSets W grammar.now }
    requires left { IsItemList (plain_of grammar.now) (record { items = left.now }) }
    requires right { IsItemList (plain_of grammar.now) (record { items = right.now }) }
    ensures { IfOk result (λ closed. IsItemUnion (plain_of grammar.now) left.now right.now closed.items) }
{
    let mut items = Vec::with_capacity(alloc, left.len().saturating_add(right.len()))?;
    let mut i = 0;
    let mut j = 0;
    'items: while i < left.len() || j < right.len() {
        let (item, (next_i, next_j)) = next_item(grammar, left, i, right, j);
        items.push(item)?;
        i = next_i;
        j = next_j;
    }
    Ok(Closure {
        items: Sequence::from_vec(items),
    })
}

/// Returns the next item, and the indices in both lists after this item.
fn next_item<const W: usize>(
    grammar: &Grammar,
    left: &[KernelItem<W>],
    i: usize,
    right: &[KernelItem<W>],
    j: usize,
) -> (KernelItem<W>, (usize, usize))
    requires fits { FitsSets W grammar.now }
    requires left { IsItemList (plain_of grammar.now) (record { items = left.now }) }
    requires right { IsItemList (plain_of grammar.now) (record { items = right.now }) }
    requires more { (i < length left.now) ⊎ (j < length right.now) }
    ensures merged { (items : List ItemOf) → IsUnionSoFar (plain_of grammar.now) left.now i right.now j items → IsUnionSoFar (plain_of grammar.now) left.now result.1.0 right.now result.1.1 (items ++ result.0 ∷ []) }
    ensures more { i + j < result.1.0 + result.1.1 }
{
    match next_side(left, i, right, j) {
        Ordering::Less => (copied_item(&left[i]), (i + 1, j)),
        Ordering::Greater => (copied_item(&right[j]), (i, j + 1)),
        Ordering::Equal => (joined_item(&left[i], &right[j]), (i + 1, j + 1)),
    }
}

/// The list that has the next item: `Less` for the left, `Greater` for the right, `Equal` for both.
fn next_side<const W: usize>(
    left: &[KernelItem<W>],
    i: usize,
    right: &[KernelItem<W>],
    j: usize,
) -> Ordering
    requires few { W ≤ 8 }
    requires more { (i < length left.now) ⊎ (j < length right.now) }
    ensures { HasNextItem left.now i right.now j result }
{
    if j >= right.len() {
        return Ordering::Less;
    }
    if i >= left.len() {
        return Ordering::Greater;
    }
    order(&left[i], &right[j])
}

/// The order of two items, by production and then by dot.
fn order<const W: usize>(x: &KernelItem<W>, y: &KernelItem<W>) -> Ordering
    ensures { result ≡ item_order x.now y.now }
{
    if x.production < y.production {
        return Ordering::Less;
    }
    if y.production < x.production {
        return Ordering::Greater;
    }
    if x.dot < y.dot {
        return Ordering::Less;
    }
    if y.dot < x.dot {
        return Ordering::Greater;
    }
    Ordering::Equal
}
