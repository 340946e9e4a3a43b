//! The states of an automaton with the items of their closures.
ghost use Rattle.std.specs.Prelude.{◌≡◌, ◌<◌, ◌≤◌, ◌↔◌, ◌*◌, length, IfOk, IsTrue};
ghost use Rattle.mh_grammar.specs.Plain.{plain_of, rhs_of, IsLookBelow};
ghost use Rattle.mh_items.specs.Fitting.{FitsSets};
ghost use Rattle.mh_items.specs.code.ClosureBuilder.{IsClosureBuilder};
ghost use Rattle.mh_items_kernels.specs.Automaton.{IsAutomaton};
ghost use Rattle.mh_lint_states.specs.code.ClosedStates.{IsClosedState, IsCompleteOn};

use mh_grammar::{Grammar, Look, Memory};
use mh_items::ClosureBuilder;
use mh_items_kernels::{Automaton, Closure, KernelItem};
use mh_resolve_settle::length_of;
use std::alloc::Global;

/// A state of an automaton, with the items of its closure.
#[derive(Drop)]
pub(crate) struct ClosedState<const W: usize> {
    pub(crate) number: u32,
    pub(crate) closed: Closure<W>,
}

/// The state with this number.
pub(crate) fn close_state<const W: usize>(
    alloc: Global,
    grammar: &Grammar,
    closer: &mut ClosureBuilder<W>,
    automaton: &Automaton<W>,
    number: u32,
) -> Result<ClosedState<W>, Memory>
    requires fits { FitsSets W grammar.now }
    requires closer { IsClosureBuilder (plain_of grammar.now) closer.old }
    requires automaton { IsAutomaton (plain_of grammar.now) automaton.now }
    requires state { number < length automaton.now.kernels }
    ensures state { IfOk result (λ state. IsClosedState grammar.now automaton.now state.number state.closed) }
    ensures number { IfOk result (λ state. state.number ≡ number) }
    ensures closer { IfOk result (λ _. IsClosureBuilder (plain_of grammar.now) closer.new) }
{
    let closed = closer.close(alloc, grammar, &automaton.kernels[number as usize])?;
    Ok(ClosedState { number, closed })
}

/// Returns true if the item is complete.
pub(crate) fn is_complete<const W: usize>(grammar: &Grammar, item: &KernelItem<W>) -> bool
    ensures { IsTrue result ↔ (item.now.dot ≡ length (rhs_of (plain_of grammar.now) item.now.production)) }
{
    item.dot as usize == length_of(grammar, item.production)
}

/// Returns true if the item is complete and has this look.
pub(crate) fn is_complete_on<const W: usize>(
    grammar: &Grammar,
    item: &KernelItem<W>,
    look: Look,
) -> bool
    requires few { W ≤ 8 }
    requires look { IsLookBelow (64 * W) look }
    ensures { IsTrue result ↔ IsCompleteOn grammar.now item.now look }
{
    is_complete(grammar, item) && item.looks.contains(look)
}
