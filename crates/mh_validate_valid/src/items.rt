//! The items that a state may have which is not a start state.
ghost use Rattle.std.specs.Prelude.{◌≡◌, ◌≤◌, ◌↔◌, [], ◌∷◌, IsTrue};
ghost use Rattle.mh_grammar.specs.declared.types.Look.TheVariants.{End};
ghost use Rattle.mh_validate_valid.specs.code.MovedItems.{IsNonStartItem};

use mh_grammar::{Grammar, Look};
use mh_items_kernels::KernelItem;
use mh_sets::TokenSet;

/// Returns true if the end of the stream is the only look.
pub fn is_end<const W: usize>(looks: &TokenSet<W>) -> bool
    requires few { W ≤ 8 }
    ensures { IsTrue result ↔ (looks.now ≡ End ∷ []) }
{
    *looks == TokenSet::only(Look::End)
}

/// Returns true if a state that is not a start state may have this item.
pub fn is_moved<const W: usize>(grammar: &Grammar, item: &KernelItem<W>) -> bool
    requires few { W ≤ 8 }
    ensures { IsTrue result ↔ IsNonStartItem grammar.now item.now }
{
    if item.dot == 0 {
        return false;
    }
    item.production as usize >= grammar.starts.len() || is_end(&item.looks)
}
