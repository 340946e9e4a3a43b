//! An index of the states by core. Only states with the core of a move can be its target.
ghost use Rattle.std.specs.Prelude.{◌≡◌, ◌≤◌, List, [], IfOk, OnOk};
ghost use Rattle.mh_items_kernels.specs.KernelTypes.{Kernel as KernelOf};
ghost use Rattle.mh_pager.specs.code.Cores.{core_item, core_of};
ghost use Rattle.mh_pager.specs.code.CoreIndex.{AreGroupsOfCores, HasGroupNumber, IsCoreIndex};

use mh_grammar::{Memory, Sequence};
use mh_items_kernels::{ItemWith, Kernel, KernelItem};
use mh_sets::TokenSet;
use std::alloc::Global;
use std::collections::HashMap;
use std::mem;

/// The states of each core, rising, in groups that are numbered in the order of their creation. A core is a kernel
/// without looks, so it is a kernel of width 0.
#[derive(Drop)]
pub struct CoreIndex {
    /// The group number of each core.
    pub(crate) places: HashMap<Kernel<0>, usize>,
    /// The states of each group, rising.
    pub(crate) states: Vec<Sequence<u32>>,
    /// Scratch space for the items of a core.
    scratch: Vec<KernelItem<0>>,
}

impl CoreIndex {
    /// Returns an empty index. It takes no memory.
    pub(crate) fn new(alloc: Global) -> CoreIndex
        ensures places { result.places.entries ≡ [] }
        ensures states { result.states.items ≡ [] }
    {
        CoreIndex {
            places: HashMap::new(alloc),
            states: Vec::new(alloc),
            scratch: Vec::new(alloc),
        }
    }

    /// Returns the group number of a kernel's core. A new core gets a new, empty group.
    pub(crate) fn place<const W: usize>(
        &mut self,
        alloc: Global,
        kernel: &Kernel<W>,
    ) -> Result<usize, Memory>
        requires small { W ≤ 8 }
        requires placed { AreGroupsOfCores self.old.places.entries self.old.states.items }
        ensures group { IfOk result (HasGroupNumber self.new.places.entries self.new.states.items (core_of kernel.now)) }
        ensures indexed { OnOk result ((kernels : List KernelOf) → IsCoreIndex kernels self.old.places.entries self.old.states.items → IsCoreIndex kernels self.new.places.entries self.new.states.items) }
    {
        let scratch = mem::replace(&mut self.scratch, Vec::new(alloc));
        let core = without_looks(scratch, kernel)?;
        if let Some(at) = self.places.get(&core).copied() {
            self.scratch = core.items.into_vec();
            return Ok(at);
        }
        let at = self.states.len();
        self.places.insert(core, at)?;
        self.states.push(Sequence::new(alloc))?;
        Ok(at)
    }
}

/// The core of a kernel, in the given memory. What the memory held before is dropped.
fn without_looks<const W: usize>(
    scratch: Vec<KernelItem<0>>,
    kernel: &Kernel<W>,
) -> Result<Kernel<0>, Memory>
    requires { W ≤ 8 }
    ensures { IfOk result (λ core. core ≡ core_of kernel.now) }
{
    let items = kernel.items.as_slice();
    let mut places = scratch;
    places.clear();
    for item in items {
        places.push(bare_item(item))?;
    }
    Ok(Kernel {
        items: Sequence::from_vec(places),
    })
}

fn bare_item<const W: usize>(item: &KernelItem<W>) -> KernelItem<0>
    requires { W ≤ 8 }
    ensures { result ≡ core_item item.now }
{
    ItemWith {
        production: item.production,
        dot: item.dot,
        looks: TokenSet::empty(),
    }
}
