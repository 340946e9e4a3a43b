//! The kinds of conflicts.
ghost use Rattle.std.specs.Prelude.{◌<◌, ◌↔◌, length, IsTrue};
ghost use Rattle.mh_grammar.specs.Plain.{plain_of, IsLookBelow};
ghost use Rattle.mh_items.specs.Fitting.{FitsSets};
ghost use Rattle.mh_items_kernels.specs.Automaton.{IsAutomaton};
ghost use Rattle.mh_lint_states.specs.ConflictKinds.{CanReduceTwo, CanShift, IsKindText};
ghost use Rattle.mh_lint_states.specs.code.ClosedStates.{IsClosedState};
ghost use Rattle.mh_lint_states.specs.code.CompleteItems.{HasTwoOn};

use crate::states::{ClosedState, is_complete_on};
use mh_grammar::{Grammar, Look, Symbol, find_edge};
use mh_items_kernels::{Automaton, KernelItem};

/// Returns true if two items are complete and have this look.
fn has_two_on<const W: usize>(grammar: &Grammar, items: &[KernelItem<W>], look: Look) -> bool
    requires fits { FitsSets W grammar.now }
    requires look { IsLookBelow (length grammar.now.tokens) look }
    ensures { IsTrue result ↔ HasTwoOn grammar.now items.now look }
{
    let mut has_one = false;
    for item in items {
        if is_complete_on(grammar, item, look) {
            if has_one {
                return true;
            }
            has_one = true;
        }
    }
    false
}

/// Returns true if a state can shift a look.
fn can_shift<const W: usize>(
    grammar: &Grammar,
    automaton: &Automaton<W>,
    state: u32,
    look: Look,
) -> bool
    requires automaton { IsAutomaton (plain_of grammar.now) automaton.now }
    requires state { state < length automaton.now.kernels }
    ensures { IsTrue result ↔ CanShift grammar.now automaton.now state look }
{
    match look {
        Look::Token(token) => {
            find_edge(automaton.edges[state as usize].as_slice(), Symbol::T(token)).is_some()
        }
        Look::End => false,
    }
}

/// Returns true if a state can reduce two productions on a look.
fn can_reduce_two<const W: usize>(
    grammar: &Grammar,
    automaton: &Automaton<W>,
    state: &ClosedState<W>,
    look: Look,
) -> bool
    requires fits { FitsSets W grammar.now }
    requires state { IsClosedState grammar.now automaton.now state.now.number state.now.closed }
    requires look { IsLookBelow (length grammar.now.tokens) look }
    ensures { IsTrue result ↔ CanReduceTwo grammar.now automaton.now state.now.number look }
{
    // Only the contract uses the automaton.
    let _automaton = automaton;
    has_two_on(grammar, state.closed.items.as_slice(), look)
}

/// The words for the kind of a conflict of a state on a look.
pub(crate) fn kind_of<const W: usize>(
    grammar: &Grammar,
    automaton: &Automaton<W>,
    state: &ClosedState<W>,
    look: Look,
) -> &'static [u8]
    requires fits { FitsSets W grammar.now }
    requires automaton { IsAutomaton (plain_of grammar.now) automaton.now }
    requires state { IsClosedState grammar.now automaton.now state.now.number state.now.closed }
    requires look { IsLookBelow (length grammar.now.tokens) look }
    ensures { IsKindText grammar.now automaton.now state.now.number look result.now }
{
    if !can_shift(grammar, automaton, state.number, look) {
        b"reduce/reduce"
    } else if can_reduce_two(grammar, automaton, state, look) {
        b"shift/reduce/reduce"
    } else {
        b"shift/reduce"
    }
}
