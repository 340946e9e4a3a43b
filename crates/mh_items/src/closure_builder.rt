//! Closures of many kernels of one grammar, with shared scratch space.
ghost use Rattle.std.specs.Prelude.{◌≡◌, ℕ, false, Some, length, slice_get, slice_index_or, IfOk};
ghost use Rattle.mh_grammar.specs.declared.types.Symbol.TheVariants.{N};
ghost use Rattle.mh_grammar.specs.Plain.{plain_of, rhs_of};
ghost use Rattle.mh_grammar.specs.ItemSets.{AreSameItems, Close};
ghost use Rattle.mh_items_kernels.specs.Kernels.{Holds, IsItemList, IsKernelItem};
ghost use Rattle.mh_items_kernels.specs.code.EmptyMarks.{HasCompleteItems};
ghost use Rattle.mh_items.specs.Fitting.{FitsSets};
ghost use Rattle.mh_items.specs.code.ClosureBuilder.{IsClosureBuilder};

use crate::closures::closure_over;
use crate::empty_productions::empties;
use crate::first_sets::Firsts;
use crate::gathering::firsts;
use crate::pending_looks::PendingLooks;
use mh_grammar::{Grammar, Memory, Symbol};
use mh_items_kernels::{Closure, Kernel, KernelItem, symbol_at};
use std::alloc::Global;

/// The sets of a grammar from which closures are computed, with scratch space that is used again for each kernel.
pub struct ClosureBuilder<const W: usize> {
    /// The sets and links of the grammar.
    pub(crate) firsts: Firsts<W>,
    /// Scratch space. Its lookahead sets are empty when no closure is being computed.
    pub(crate) asked: PendingLooks<W>,
    /// For each nonterminal, whether a production of it is empty or begins with a marked nonterminal.
    pub(crate) empties: Vec<bool>,
}

// The exit of a function drops this value by one call. With the derived destructor it would drop each field.
impl<const W: usize> Drop for ClosureBuilder<W> {
    fn drop(self) {
        let ClosureBuilder {
            firsts,
            asked,
            empties,
        } = self;
        drop(firsts);
        drop(asked);
        drop(empties);
    }
}

impl<const W: usize> ClosureBuilder<W> {
    /// Prepares closures of kernels of a grammar. It fails only if there is no memory.
    pub fn new(alloc: Global, grammar: &Grammar) -> Result<ClosureBuilder<W>, Memory>
        requires fits { FitsSets W grammar.now }
        ensures { IfOk result (IsClosureBuilder (plain_of grammar.now)) }
    {
        let empties = empties(alloc, grammar)?;
        let asked = PendingLooks::new(alloc, grammar.nonterminals.len())?;
        Ok(ClosureBuilder {
            firsts: firsts(alloc, grammar)?,
            asked,
            empties,
        })
    }

    /// Returns the closure of a kernel, rising (Knuth 1965). It fails only if there is no memory.
    pub fn close(
        &mut self,
        alloc: Global,
        grammar: &Grammar,
        kernel: &Kernel<W>,
    ) -> Result<Closure<W>, Memory>
        requires fits { FitsSets W grammar.now }
        requires closer { IsClosureBuilder (plain_of grammar.now) self.old }
        requires kernel { IsItemList (plain_of grammar.now) kernel.now }
        ensures kernel { IfOk result (IsItemList (plain_of grammar.now)) }
        ensures exact { IfOk result (λ c. AreSameItems (Holds c) (Close (plain_of grammar.now) (Holds kernel.now))) }
        ensures closer { IfOk result (λ _. IsClosureBuilder (plain_of grammar.now) self.new) }
    {
        closure_over(alloc, grammar, &self.firsts, kernel, &mut self.asked)
    }

    /// True if the closure of the kernel may add complete items. If false, the kernel has all complete items of its
    /// closure.
    pub fn adds_complete(&self, grammar: &Grammar, kernel: &Kernel<W>) -> bool
        requires fits { FitsSets W grammar.now }
        requires closer { IsClosureBuilder (plain_of grammar.now) self.now }
        requires kernel { IsItemList (plain_of grammar.now) kernel.now }
        ensures { result ≡ false → HasCompleteItems (plain_of grammar.now) kernel.now kernel.now }
    {
        for item in kernel.items.as_slice() {
            if has_marked_symbol(grammar, self.empties.as_slice(), item) {
                return true;
            }
        }
        false
    }
}

/// True if the symbol at the dot of the item is a marked nonterminal.
fn has_marked_symbol<const W: usize>(
    grammar: &Grammar,
    marks: &[bool],
    item: &KernelItem<W>,
) -> bool
    requires fits { FitsSets W grammar.now }
    requires item { IsKernelItem (plain_of grammar.now) item.now }
    requires marks { length marks.now ≡ length grammar.now.nonterminals }
    ensures { result ≡ false → (n : ℕ) → slice_get (rhs_of (plain_of grammar.now) item.now.production) item.now.dot ≡ Some (N n) → slice_index_or marks.now n false ≡ false }
{
    match symbol_at(grammar, item.production, item.dot) {
        Some(Symbol::N(n)) => marks[usize::from(n)],
        Some(Symbol::T(_)) => false,
        None => false,
    }
}
