//! The kernels of a collection in an index by hash.
ghost use Rattle.std.specs.Prelude.{◌≡◌, ◌<◌, ◌≤◌, ℕ, [], Err, IfOk};
ghost use Rattle.mh_grammar.specs.Placed.{Placed};
ghost use Rattle.mh_canon.specs.Limits.{max_states};

use crate::limits::number;
use indexmap::IndexSet;
use mh_items_kernels::{Kernel, StatesFault};
use std::alloc::{AllocError, AllocFailed, Global};

/// The kernels that were found, by their numbers.
#[derive(Drop)]
pub(crate) struct KernelIndex<const W: usize> {
    /// The kernels in the order in which they were found.
    pub(crate) set: IndexSet<Kernel<W>>,
}

impl<const W: usize> KernelIndex<W> {
    /// Returns an empty collection. It takes no memory.
    pub(crate) fn new(alloc: Global) -> KernelIndex<W>
        requires { W ≤ 8 }
        ensures { result.set.keys ≡ [] }
    {
        KernelIndex {
            set: IndexSet::new(alloc),
        }
    }

    /// The list of the kernels, by their numbers.
    pub(crate) fn into_list(self, alloc: Global) -> Result<Vec<Kernel<W>>, AllocError>
        requires { W ≤ 8 }
        ensures { IfOk result (λ list. list.items ≡ self.entry.set.keys) }
    {
        self.set.into_iter().collect(alloc)
    }

    /// Returns the index of a kernel; a new kernel is appended.
    pub(crate) fn insert(&mut self, kernel: Kernel<W>) -> Result<usize, AllocFailed<Kernel<W>>>
        requires { W ≤ 8 }
        ensures { IfOk result (Placed self.old.set.keys self.new.set.keys kernel.entry) }
    {
        let (at, _) = self.set.insert_full(kernel)?;
        Ok(at)
    }

    /// Returns the number of a kernel; a new kernel is appended. It fails with `TooManyStates` if the number is at
    /// least `MAX_STATES`.
    pub(crate) fn place(&mut self, kernel: Kernel<W>) -> Result<u32, StatesFault>
        requires { W ≤ 8 }
        ensures ok { IfOk result (λ at. Placed self.old.set.keys self.new.set.keys kernel.entry at × (at < max_states)) }
        ensures exceeds { result ≡ Err StatesFault.TooManyStates → (at : ℕ) × Placed self.old.set.keys self.new.set.keys kernel.entry at × (max_states ≤ at) }
    {
        let at = self.insert(kernel)?;
        number(at)
    }

    /// The kernels, by their numbers.
    pub(crate) fn all(&self) -> &[Kernel<W>]
        ensures { result.now ≡ self.now.set.keys }
    {
        self.set.as_slice()
    }
}
