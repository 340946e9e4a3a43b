//! The merged automaton: the states of the finished list that the starts reach, renumbered.
ghost use Rattle.std.specs.Prelude.{◌≡◌, ◌↔◌, ◌≤◌, [], length, Err, IfOk, OnOk};
ghost use Rattle.mh_grammar.specs.Plain.{plain_of};
ghost use Rattle.mh_items_kernels.specs.KernelTypes.{Automaton as AutomatonOf};
ghost use Rattle.mh_items_kernels.specs.Automaton.{IsAutomaton};
ghost use Rattle.mh_canon.specs.Canonical.{IsCanonical};
ghost use Rattle.mh_items_kernels.specs.Conflicts.{AutomatonHasConflict, AutomatonHasAnyConflict};
ghost use Rattle.mh_pager.specs.CoversPaths.{CoversPaths};
ghost use Rattle.mh_pager.specs.code.Worklist.{merge_state_of, IsConsistentWorklist};
ghost use Rattle.mh_pager.specs.code.ReachedByMerging.{IsReachedByMerging};
ghost use Rattle.mh_pager.specs.MergeSteps.{IsMerged, MergingExceeds};
ghost use Rattle.mh_items.specs.Fitting.{FitsSets};
ghost use Rattle.mh_canon.specs.Limits.{max_states};

use crate::construction::list_all;
use crate::numbering::{pick, reach};
use crate::starts::kept_first;
use crate::worklist::Worklist;
use mh_grammar::{Grammar, Memory, Sequence};
use mh_items_kernels::{Automaton, StatesFault};
use std::alloc::Global;

/// Returns Pager's merged automaton of a grammar (Pager 1977). It fails with `TooManyStates` exactly if the list of
/// states holds more than `MAX_STATES` states at some time during the construction, and with `Memory` if there is no
/// memory.
pub fn merged<const W: usize>(alloc: Global, grammar: &Grammar) -> Result<Automaton<W>, StatesFault>
    requires fits { FitsSets W grammar.now }
    ensures ok { IfOk result (IsMerged (plain_of grammar.now)) }
    ensures few { IfOk result (λ a. length a.kernels ≤ max_states) }
    ensures exact { IfOk result (λ _. MergingExceeds (plain_of grammar.now) max_states → ⊥) }
    ensures exceeds { result ≡ Err StatesFault.TooManyStates → MergingExceeds (plain_of grammar.now) max_states }
    ensures automaton { IfOk result (IsAutomaton (plain_of grammar.now)) }
    // Each path of the canonical automaton is a path of this automaton, to a state that contains its looks.
    ensures paths { IfOk result (CoversPaths (plain_of grammar.now)) }
    // The merged automaton has a conflict exactly if the canonical automaton has one.
    ensures clashes { IfOk result (λ a. (c : AutomatonOf) → IsCanonical (plain_of grammar.now) c → AutomatonHasConflict (plain_of grammar.now) a ↔ AutomatonHasConflict (plain_of grammar.now) c) }
    // The same for all conflicts together, of which end-of-stream conflicts are a part.
    ensures faults { IfOk result (λ a. (c : AutomatonOf) → IsCanonical (plain_of grammar.now) c → AutomatonHasAnyConflict (plain_of grammar.now) a ↔ AutomatonHasAnyConflict (plain_of grammar.now) c) }
{
    let mut worklist = Worklist::new(alloc);
    merged_over(alloc, grammar, &mut worklist)
}

/// Builds the merged automaton with a worklist that has no states yet.
fn merged_over<const W: usize>(
    alloc: Global,
    grammar: &Grammar,
    worklist: &mut Worklist<W>,
) -> Result<Automaton<W>, StatesFault>
    requires fits { FitsSets W grammar.now }
    requires empty { merge_state_of worklist.old ≡ record { kernels = []; rows = []; queue = [] } }
    requires kept { IsConsistentWorklist worklist.old }
    ensures ok { IfOk result (IsMerged (plain_of grammar.now)) }
    ensures few { IfOk result (λ a. length a.kernels ≤ max_states) }
    ensures exact { IfOk result (λ _. MergingExceeds (plain_of grammar.now) max_states → ⊥) }
    ensures exceeds { result ≡ Err StatesFault.TooManyStates → MergingExceeds (plain_of grammar.now) max_states }
{
    match list_all(alloc, grammar, worklist) {
        Ok(()) => Ok(numbered(alloc, grammar, worklist)?),
        Err(fault) => Err(fault),
    }
}

/// The automaton of the states of a finished list that the starts reach.
fn numbered<const W: usize>(
    alloc: Global,
    grammar: &Grammar,
    worklist: &Worklist<W>,
) -> Result<Automaton<W>, Memory>
    requires fits { FitsSets W grammar.now }
    requires list { IsReachedByMerging (plain_of grammar.now) (merge_state_of worklist.now) }
    requires done { worklist.now.queue.states.items ≡ [] }
    requires few { length worklist.now.kernels.items ≤ max_states }
    ensures ok { IfOk result (IsMerged (plain_of grammar.now)) }
    ensures few { IfOk result (λ a. length a.kernels ≤ max_states) }
{
    let mut automaton = Automaton {
        kernels: Sequence::new(alloc),
        edges: Sequence::new(alloc),
    };
    fill(alloc, grammar, worklist, &mut automaton)?;
    Ok(automaton)
}

/// Fills an empty automaton with the states that the starts reach.
fn fill<const W: usize>(
    alloc: Global,
    grammar: &Grammar,
    worklist: &Worklist<W>,
    automaton: &mut Automaton<W>,
) -> Result<(), Memory>
    requires fits { FitsSets W grammar.now }
    requires list { IsReachedByMerging (plain_of grammar.now) (merge_state_of worklist.now) }
    requires done { worklist.now.queue.states.items ≡ [] }
    requires few { length worklist.now.kernels.items ≤ max_states }
    requires no_kernels { automaton.old.kernels ≡ [] }
    requires no_edges { automaton.old.edges ≡ [] }
    ensures ok { OnOk result (IsMerged (plain_of grammar.now) automaton.new) }
    ensures few { OnOk result (length automaton.new.kernels ≤ max_states) }
{
    let starts = grammar.starts.len();
    let rows = worklist.rows.as_slice();
    let kernels = worklist.kernels.as_slice();
    let mut states = kept_first(alloc, starts)?;
    reach(alloc, starts, rows, &mut states, &mut automaton.edges)?;
    pick(alloc, kernels, states.as_slice(), &mut automaton.kernels)
}
