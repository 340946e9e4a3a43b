//! Pager's condition on two kernels with one core (Pager 1977).
ghost use Rattle.std.specs.Prelude.{◌≡◌, ◌<◌, ◌≤◌, ◌↔◌, length, IsTrue};
ghost use Rattle.mh_pager.specs.code.ItemLists.{AreItemLooksWithin, MeetsCondition, MeetsConditionAt, MeetsConditionBefore, MeetsConditionEverywhere, ShareLook, AreLooksWithin};

use mh_items_kernels::KernelItem;

/// True if, at each index, the looks of the left list are in the right list.
pub(crate) fn are_within<const W: usize>(left: &[KernelItem<W>], right: &[KernelItem<W>]) -> bool
    requires few { W ≤ 8 }
    requires core { length left.now ≡ length right.now }
    ensures { IsTrue result ↔ AreItemLooksWithin left.now right.now }
{
    for i in 0..left.len() {
        if !item_within(&left[i], &right[i]) {
            return false;
        }
    }
    true
}

/// True if two kernels with one core are weakly compatible.
pub(crate) fn are_compatible<const W: usize>(
    left: &[KernelItem<W>],
    right: &[KernelItem<W>],
) -> bool
    requires few { W ≤ 8 }
    requires core { length left.now ≡ length right.now }
    ensures { IsTrue result ↔ MeetsConditionEverywhere left.now right.now }
{
    for j in 0..left.len() {
        if !fit_before(left, right, j) {
            return false;
        }
    }
    true
}

fn fit_before<const W: usize>(left: &[KernelItem<W>], right: &[KernelItem<W>], j: usize) -> bool
    requires few { W ≤ 8 }
    requires core { length left.now ≡ length right.now }
    requires within { j < length left.now }
    ensures { IsTrue result ↔ MeetsConditionBefore left.now right.now j }
{
    for i in 0..j {
        if !fit_at(left, right, i, j) {
            return false;
        }
    }
    true
}

/// Pager's condition at two indices.
fn fit_at<const W: usize>(
    left: &[KernelItem<W>],
    right: &[KernelItem<W>],
    i: usize,
    j: usize,
) -> bool
    requires few { W ≤ 8 }
    requires core { length left.now ≡ length right.now }
    requires first { i < length left.now }
    requires second { j < length left.now }
    ensures { IsTrue result ↔ MeetsConditionAt left.now right.now i j }
{
    fit(&left[i], &right[i], &left[j], &right[j])
}

fn fit<const W: usize>(
    a: &KernelItem<W>,
    b: &KernelItem<W>,
    c: &KernelItem<W>,
    d: &KernelItem<W>,
) -> bool
    requires few { W ≤ 8 }
    ensures { IsTrue result ↔ MeetsCondition a.now.looks b.now.looks c.now.looks d.now.looks }
{
    if item_meets(a, c) {
        return true;
    }
    if item_meets(b, d) {
        return true;
    }
    if item_meets(a, d) {
        return false;
    }
    !item_meets(c, b)
}

fn item_meets<const W: usize>(x: &KernelItem<W>, y: &KernelItem<W>) -> bool
    requires few { W ≤ 8 }
    ensures { IsTrue result ↔ ShareLook x.now.looks y.now.looks }
{
    x.looks.meets(&y.looks)
}

fn item_within<const W: usize>(x: &KernelItem<W>, y: &KernelItem<W>) -> bool
    requires few { W ≤ 8 }
    ensures { IsTrue result ↔ AreLooksWithin x.now.looks y.now.looks }
{
    x.looks.is_subset(&y.looks)
}
