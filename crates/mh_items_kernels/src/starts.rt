//! The kernels of the start states.
ghost use Rattle.std.specs.Prelude.{◌≡◌, ◌<◌, ◌≤◌, length, IfOk};
ghost use Rattle.mh_grammar.specs.Plain.{plain_of, IsInRange};
ghost use Rattle.mh_items_kernels.specs.Kernels.{IsItemList};
ghost use Rattle.mh_items_kernels.specs.Automaton.{start_kernel as kernel_of_start};

use crate::kernels::{Kernel, KernelItem};
use mh_grammar::{Grammar, Look, Memory, Sequence};
use mh_sets::TokenSet;
use std::alloc::Global;

/// The kernel of a start: its production with the dot before its symbol and the end of the stream as look. It fails
/// only if there is no memory.
pub fn start_kernel<const W: usize>(
    alloc: Global,
    grammar: &Grammar,
    start: u16,
) -> Result<Kernel<W>, Memory>
    requires few { W ≤ 8 }
    requires range { IsInRange (plain_of grammar.now) }
    requires start { start < length grammar.now.starts }
    ensures kernel { IfOk result (IsItemList (plain_of grammar.now)) }
    ensures exact { IfOk result (λ k. k ≡ kernel_of_start start) }
{
    // Only the contract uses the grammar.
    let _grammar = grammar;
    let mut items = Sequence::new(alloc);
    items.push(KernelItem {
        production: u32::from(start),
        dot: 0,
        looks: TokenSet::only(Look::End),
    })?;
    Ok(Kernel { items })
}
