//! The production that `%on_error_reduce` reduces in a state.
ghost use Rattle.std.specs.Prelude.{◌≡◌, ◌<◌, ◌≤◌, ℕ, [], length, MatchOption};
ghost use Rattle.std.specs.List.{All};
ghost use Rattle.mh_resolve_cells.specs.States.{IsErrorReduction};
ghost use Rattle.mh_resolve_cells.specs.code.CellRows.{state_of_items, rank_in, best_with, HasSomeLook};

use crate::levels::{length_of, rank_of};
use mh_grammar::Grammar;
use mh_items_kernels::KernelItem;
use mh_resolve_cells::BestCandidate;

/// The rank of an item for `%on_error_reduce`, if its production is complete.
fn rank_of_item<const W: usize>(grammar: &Grammar, item: &KernelItem<W>) -> Option<u64>
    ensures { result ≡ rank_in grammar.now item.now }
{
    if item.dot as usize == length_of(grammar, item.production) {
        rank_of(grammar, item.production)
    } else {
        None
    }
}

fn better(best: Option<BestCandidate>, production: u32, rank: u64) -> BestCandidate
    ensures { result ≡ best_with best production rank }
{
    match best {
        None => BestCandidate {
            rank,
            production,
            tied: false,
        },
        Some(old) => {
            if rank < old.rank {
                BestCandidate {
                    rank,
                    production,
                    tied: false,
                }
            } else if old.rank < rank {
                old
            } else {
                BestCandidate {
                    tied: old.tied || production != old.production,
                    ..old
                }
            }
        }
    }
}

/// The production of the only candidate with the lowest rank, if there is exactly one.
pub fn on_error_production<const W: usize>(
    grammar: &Grammar,
    items: &[KernelItem<W>],
) -> Option<u32>
    requires few { W ≤ 8 }
    requires items { All HasSomeLook items.now }
    ensures { MatchOption result ((p : ℕ) → IsErrorReduction (state_of_items grammar.now items.now []) p → ⊥) (IsErrorReduction (state_of_items grammar.now items.now [])) }
{
    let mut best = None;
    for item in items {
        if let Some(rank) = rank_of_item(grammar, item) {
            best = Some(better(best, item.production, rank));
        }
    }
    match best {
        Some(found) => {
            if found.tied {
                None
            } else {
                Some(found.production)
            }
        }
        None => None,
    }
}
