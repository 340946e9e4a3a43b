//! Laws of the definitions, and equality of kernels.
ghost use Rattle.std.specs.Prelude.{◌≡◌, ◌↔◌, IsTrue};
ghost use Rattle.mh_grammar.specs.Plain.{plain_of};
ghost use Rattle.mh_grammar.specs.ItemSets.{AreSameItems};
ghost use Rattle.mh_items_kernels.specs.KernelTypes.{Kernel as KernelOf};
ghost use Rattle.mh_items_kernels.specs.Kernels.{Holds, IsItemList};

use crate::kernels::Kernel;
use mh_grammar::Grammar;

/// Law: two kernels with the same set of items are equal.
pub fn same_items_same_kernel(grammar: &Grammar)
    ensures { (left right : KernelOf) → IsItemList (plain_of grammar.now) left → IsItemList (plain_of grammar.now) right → AreSameItems (Holds left) (Holds right) → left ≡ right }
{
    let _grammar = grammar;
}

/// True if the two kernels are equal.
pub fn are_equal<const W: usize>(left: &Kernel<W>, right: &Kernel<W>) -> bool
    ensures { IsTrue result ↔ (left.now ≡ right.now) }
{
    left == right
}
