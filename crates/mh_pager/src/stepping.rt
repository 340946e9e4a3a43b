//! One step: the oldest queued state gets its edges.
ghost use Rattle.std.specs.Prelude.{◌≡◌, ◌<◌, ◌≤◌, ◌∷◌, ℕ, length, Err, IfOk, OnOk};
ghost use Rattle.mh_grammar.specs.Plain.{plain_of};
ghost use Rattle.mh_items_kernels.specs.KernelTypes.{Kernel as KernelOf};
ghost use Rattle.mh_items_kernels.specs.Kernels.{IsItemList};
ghost use Rattle.mh_items.specs.Fitting.{FitsSets};
ghost use Rattle.mh_items.specs.code.AllMoves.{AreMoves};
ghost use Rattle.mh_items.specs.code.MoveBuilder.{IsMoveBuilder};
ghost use Rattle.mh_pager.specs.code.MergeStep.{with_oldest, PlacesAllMoves, ExceedsForMoves};
ghost use Rattle.mh_pager.specs.code.Worklist.{merge_state_of, IsConsistentWorklist};
ghost use Rattle.mh_pager.specs.code.ReachedByMerging.{IsWellFormed};
ghost use Rattle.mh_pager.specs.MergeSteps.{IsMergeStep, StepExceeds};
ghost use Rattle.mh_canon.specs.Limits.{max_states};

use crate::worklist::Worklist;
use mh_grammar::{Edge, Grammar, Sequence};
use mh_items::{Move, MoveBuilder};
use mh_items_kernels::StatesFault;
use std::alloc::Global;

/// Places the moves of a state, in the order of their symbols, and sets the edges of the state.
pub(crate) fn step<const W: usize>(
    alloc: Global,
    grammar: &Grammar,
    mover: &mut MoveBuilder<W>,
    worklist: &mut Worklist<W>,
    state: u32,
) -> Result<(), StatesFault>
    requires fits { FitsSets W grammar.now }
    requires mover { IsMoveBuilder (plain_of grammar.now) mover.old }
    requires ready { IsWellFormed (plain_of grammar.now) (with_oldest worklist.old state) }
    requires few { length worklist.old.kernels.items ≤ max_states }
    requires kept { IsConsistentWorklist worklist.old }
    ensures ok { OnOk result (IsMergeStep (plain_of grammar.now) (with_oldest worklist.old state) (merge_state_of worklist.new)) }
    ensures mover { OnOk result (IsMoveBuilder (plain_of grammar.now) mover.new) }
    ensures few { OnOk result (length worklist.new.kernels.items ≤ max_states) }
    ensures kept { OnOk result (IsConsistentWorklist worklist.new) }
    ensures exceeds { result ≡ Err StatesFault.TooManyStates → StepExceeds (plain_of grammar.now) max_states (with_oldest worklist.old state) }
{
    let moves = mover.moves(alloc, grammar, &worklist.kernels[state as usize])?;
    match put_all(alloc, grammar, moves, worklist) {
        Ok(row) => {
            worklist.rows[state as usize] = row;
            Ok(())
        }
        Err(fault) => Err(fault),
    }
}

/// Returns the edges for a list of moves, after placing each of them in order.
fn put_all<const W: usize>(
    alloc: Global,
    grammar: &Grammar,
    moves: Vec<Move<W>>,
    worklist: &mut Worklist<W>,
) -> Result<Sequence<Edge>, StatesFault>
    requires fits { FitsSets W grammar.now }
    requires moves { (closed : KernelOf) × IsItemList (plain_of grammar.now) closed × AreMoves (plain_of grammar.now) closed moves.items }
    requires ready { IsWellFormed (plain_of grammar.now) (merge_state_of worklist.old) }
    requires few { length worklist.old.kernels.items ≤ max_states }
    requires kept { IsConsistentWorklist worklist.old }
    ensures ok { IfOk result (λ row. PlacesAllMoves (plain_of grammar.now) moves.entry.items (merge_state_of worklist.old) (merge_state_of worklist.new) row) }
    ensures few { OnOk result (length worklist.new.kernels.items ≤ max_states) }
    ensures kept { OnOk result (IsConsistentWorklist worklist.new) }
    ensures exceeds { result ≡ Err StatesFault.TooManyStates → ExceedsForMoves (plain_of grammar.now) moves.entry.items (merge_state_of worklist.old) max_states }
{
    let mut row = Vec::with_capacity(alloc, moves.len())?;
    for found in moves {
        match worklist.put(alloc, grammar, found.kernel) {
            Ok(target) => row.push(Edge {
                symbol: found.symbol,
                target,
            })?,
            Err(fault) => return Err(fault),
        }
    }
    Ok(Sequence::from_vec(row))
}
