//! Operations on one item, for closures, moves and merging: copy it, advance its dot, join its looks with those of
//! another item, and compute the looks that it passes on.
ghost use Rattle.std.specs.Prelude.{◌≡◌, ◌<◌, ◌+◌, ◌^◌, ◌⊎◌, ◌↔◌, true};
ghost use Rattle.std.specs.List.{Contains};
ghost use Rattle.mh_grammar.specs.declared.types.Look.{Look as LookOf};
ghost use Rattle.mh_items_kernels.specs.Kernels.{HasLooksOfBoth};

use crate::kernels::KernelItem;
use mh_sets::TokenSet;

/// The item with its dot after the next symbol.
pub fn advanced<const W: usize>(item: &KernelItem<W>) -> KernelItem<W>
    requires { item.now.dot + 1 < 2 ^ 32 }
    ensures { result ≡ record item.now { dot = item.now.dot + 1 } }
{
    KernelItem {
        production: item.production,
        dot: item.dot + 1,
        looks: item.looks.copied(),
    }
}

/// A copy of the item. It takes no memory.
pub fn copied_item<const W: usize>(item: &KernelItem<W>) -> KernelItem<W>
    ensures { result ≡ item.now }
{
    KernelItem {
        production: item.production,
        dot: item.dot,
        looks: item.looks.copied(),
    }
}

/// The item with the looks of another item added.
pub fn joined_item<const W: usize>(item: &KernelItem<W>, other: &KernelItem<W>) -> KernelItem<W>
    ensures { HasLooksOfBoth item.now other.now result }
{
    let mut looks = item.looks.copied();
    looks.union_into(&other.looks);
    KernelItem {
        production: item.production,
        dot: item.dot,
        looks,
    }
}

/// The union of the tokens with the looks, if `passes`; otherwise the tokens alone.
pub fn passed_on<const W: usize>(
    tokens: &TokenSet<W>,
    passes: bool,
    looks: &TokenSet<W>,
) -> TokenSet<W>
    ensures { (b : LookOf) → Contains result b ↔ (Contains tokens.now b ⊎ ((passes ≡ true) × Contains looks.now b)) }
{
    let mut added = tokens.copied();
    if passes {
        added.union_into(looks);
    }
    added
}
