//! The move of a closure on one symbol.
ghost use Rattle.std.specs.Prelude.{◌≡◌, ◌<◌, ◌≤◌, ◌↔◌, ℕ, Some, slice_get, IsTrue, IfOk};
ghost use Rattle.mh_grammar.specs.Plain.{plain_of, rhs_of, production_count, IsInRange};
ghost use Rattle.mh_grammar.specs.ItemSets.{AreSameItems, Moved};
ghost use Rattle.mh_items_kernels.specs.Kernels.{Holds, IsItemList};

use mh_grammar::{Grammar, Memory, Sequence, Symbol};
use mh_items_kernels::{Closure, Kernel, KernelItem, advanced, symbol_at};
use std::alloc::Global;

/// Returns the items of a closure with the dot moved past the symbol, rising (Knuth 1965). It fails only if there is no
/// memory.
pub fn moved<const W: usize>(
    alloc: Global,
    grammar: &Grammar,
    closed: &Closure<W>,
    symbol: Symbol,
) -> Result<Kernel<W>, Memory>
    requires few { W ≤ 8 }
    requires range { IsInRange (plain_of grammar.now) }
    requires kernel { IsItemList (plain_of grammar.now) closed.now }
    ensures kernel { IfOk result (IsItemList (plain_of grammar.now)) }
    ensures exact { IfOk result (λ m. AreSameItems (Holds m) (Moved (plain_of grammar.now) (Holds closed.now) symbol)) }
{
    let mut items = Vec::new(alloc);
    for item in closed.items.as_slice() {
        if is_before(grammar, item, symbol) {
            items.push(advanced(item))?;
        }
    }
    Ok(Kernel {
        items: Sequence::from_vec(items),
    })
}

/// True if the symbol is at the dot of the item.
fn is_before<const W: usize>(grammar: &Grammar, item: &KernelItem<W>, symbol: Symbol) -> bool
    requires range { IsInRange (plain_of grammar.now) }
    requires production { item.now.production < production_count (plain_of grammar.now) }
    ensures { IsTrue result ↔ (slice_get (rhs_of (plain_of grammar.now) item.now.production) item.now.dot ≡ Some symbol) }
{
    symbol_at(grammar, item.production, item.dot) == Some(symbol)
}
