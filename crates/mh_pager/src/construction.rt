//! The construction of the list of states, from the start kernels until the queue is empty.
ghost use Rattle.std.specs.Prelude.{◌≡◌, ◌<◌, ◌≤◌, [], ℕ, length, Err, OnOk};
ghost use Rattle.mh_grammar.specs.Plain.{plain_of};
ghost use Rattle.mh_items.specs.Fitting.{FitsSets};
ghost use Rattle.mh_items.specs.code.MoveBuilder.{IsMoveBuilder};
ghost use Rattle.mh_pager.specs.code.Worklist.{merge_state_of, IsConsistentWorklist};
ghost use Rattle.mh_pager.specs.code.ReachedByMerging.{IsReachedByMerging, IsInitialUpTo};
ghost use Rattle.mh_pager.specs.MergeSteps.{MergingExceeds};
ghost use Rattle.mh_canon.specs.Limits.{max_states};

use crate::stepping::step;
use crate::worklist::Worklist;
use mh_grammar::{Grammar, Memory};
use mh_items::MoveBuilder;
use mh_items_kernels::{StatesFault, start_kernel};
use std::alloc::Global;

/// Takes steps until the queue is empty, starting with a worklist without states.
pub(crate) fn list_all<const W: usize>(
    alloc: Global,
    grammar: &Grammar,
    worklist: &mut Worklist<W>,
) -> Result<(), StatesFault>
    requires fits { FitsSets W grammar.now }
    requires empty { merge_state_of worklist.old ≡ record { kernels = []; rows = []; queue = [] } }
    requires kept { IsConsistentWorklist worklist.old }
    ensures ok { OnOk result (IsReachedByMerging (plain_of grammar.now) (merge_state_of worklist.new)) }
    ensures done { OnOk result (worklist.new.queue.states.items ≡ []) }
    ensures few { OnOk result (length worklist.new.kernels.items ≤ max_states) }
    ensures exceeds { result ≡ Err StatesFault.TooManyStates → MergingExceeds (plain_of grammar.now) max_states }
{
    begin(alloc, grammar, worklist)?;
    let mut mover = MoveBuilder::new(alloc, grammar)?;
    step_all(alloc, grammar, &mut mover, worklist)
}

/// Takes steps until the queue is empty, starting with the start kernels.
fn step_all<const W: usize>(
    alloc: Global,
    grammar: &Grammar,
    mover: &mut MoveBuilder<W>,
    worklist: &mut Worklist<W>,
) -> Result<(), StatesFault>
    requires fits { FitsSets W grammar.now }
    requires mover { IsMoveBuilder (plain_of grammar.now) mover.old }
    requires begun { IsInitialUpTo (length grammar.now.starts) (merge_state_of worklist.old) }
    requires kept { IsConsistentWorklist worklist.old }
    ensures ok { OnOk result (IsReachedByMerging (plain_of grammar.now) (merge_state_of worklist.new)) }
    ensures done { OnOk result (worklist.new.queue.states.items ≡ []) }
    ensures few { OnOk result (length worklist.new.kernels.items ≤ max_states) }
    ensures exceeds { result ≡ Err StatesFault.TooManyStates → MergingExceeds (plain_of grammar.now) max_states }
{
    'steps: while let Some(state) = worklist.queue.take_oldest() {
        match step(alloc, grammar, mover, worklist, state) {
            Ok(()) => {}
            Err(fault) => return Err(fault),
        }
    }
    Ok(())
}

/// Adds the start kernels, all of them queued, to a worklist without states.
fn begin<const W: usize>(
    alloc: Global,
    grammar: &Grammar,
    worklist: &mut Worklist<W>,
) -> Result<(), Memory>
    requires fits { FitsSets W grammar.now }
    requires empty { merge_state_of worklist.old ≡ record { kernels = []; rows = []; queue = [] } }
    requires kept { IsConsistentWorklist worklist.old }
    ensures begun { OnOk result (IsInitialUpTo (length grammar.now.starts) (merge_state_of worklist.new)) }
    ensures kept { OnOk result (IsConsistentWorklist worklist.new) }
{
    for start in 0..grammar.starts.len() {
        let kernel = start_kernel(alloc, grammar, start as u16)?;
        worklist.push_start(alloc, kernel)?;
    }
    Ok(())
}
