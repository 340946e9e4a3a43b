//! Compares the cores and the looks of kernels, to decide whether an edge may lead to a state.
ghost use Rattle.std.specs.Prelude.{◌≤◌, ◌↔◌, IsTrue};
ghost use Rattle.std.specs.List.{AllZip};
ghost use Rattle.mh_validate_valid.specs.code.KernelWithin.{IsItemWithin, IsKernelWithin};

use mh_items_kernels::{Kernel, KernelItem};

/// Returns true if both items have the same production and dot, and the looks of the first are among those of the
/// second.
fn is_item_within<const W: usize>(inner: &KernelItem<W>, outer: &KernelItem<W>) -> bool
    requires few { W ≤ 8 }
    ensures { IsTrue result ↔ IsItemWithin inner.now outer.now }
{
    if inner.production != outer.production {
        return false;
    }
    if inner.dot != outer.dot {
        return false;
    }
    inner.looks.is_subset(&outer.looks)
}

fn are_items_within<const W: usize>(inner: &[KernelItem<W>], outer: &[KernelItem<W>]) -> bool
    requires few { W ≤ 8 }
    ensures { IsTrue result ↔ AllZip IsItemWithin inner.now outer.now }
{
    if inner.len() != outer.len() {
        return false;
    }
    for at in 0..inner.len() {
        if !is_item_within(&inner[at], &outer[at]) {
            return false;
        }
    }
    true
}

/// Returns true if both kernels have the same core, and the looks of each item of the first are among those of the
/// second.
pub fn is_kernel_within<const W: usize>(inner: &Kernel<W>, outer: &Kernel<W>) -> bool
    requires few { W ≤ 8 }
    ensures { IsTrue result ↔ IsKernelWithin inner.now outer.now }
{
    are_items_within(inner.items.as_slice(), outer.items.as_slice())
}
