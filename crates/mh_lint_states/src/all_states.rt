//! Collects over all states which levels are compared and which productions are reduced.
ghost use Rattle.std.specs.Prelude.{◌≡◌, ◌<◌, ◌≤◌, length, IfOk, OnOk};
ghost use Rattle.mh_grammar.specs.Plain.{plain_of, IsInRange};
ghost use Rattle.mh_items.specs.Fitting.{FitsSets};
ghost use Rattle.mh_items.specs.code.ClosureBuilder.{IsClosureBuilder};
ghost use Rattle.mh_items_kernels.specs.Automaton.{IsAutomaton};
ghost use Rattle.mh_resolve_cells.specs.declared.kinds.Mode.{Mode};
ghost use Rattle.mh_resolve_cells.specs.States.{IsTableOf};
ghost use Rattle.mh_lint_states.specs.code.ClosedStates.{IsClosedState};
ghost use Rattle.mh_lint_states.specs.code.ShownStates.{AreFlagsOf, AreShown, HasNoFlags, ShowsState, IsShown};

use crate::comparisons::{ComparedLevels, mark_state};
use crate::reductions::{mark_on_errors, mark_reduced};
use crate::states::{ClosedState, close_state};
use mh_grammar::{Grammar, Memory};
use mh_items::ClosureBuilder;
use mh_items_kernels::Automaton;
use mh_resolve_settle::shifts_of;
use mh_tables_core::Table;
use std::alloc::Global;

/// Flags for what occurs in some state of an automaton and of its table.
pub struct ShownByStates {
    pub compared: ComparedLevels,
    /// For each production, the start productions first, whether some state reduces the production.
    pub reduced: Vec<bool>,
    /// For each nonterminal whether some state reduces a production of the nonterminal on errors.
    pub on_errors: Vec<bool>,
}

// The exit of a function drops this value by one call. With the derived destructor it would drop each field.
impl Drop for ShownByStates {
    fn drop(self) {
        let ShownByStates {
            compared,
            reduced,
            on_errors,
        } = self;
        drop(compared);
        drop(reduced);
        drop(on_errors);
    }
}

/// The flags, none of which is set.
fn no_flags(alloc: Global, grammar: &Grammar) -> Result<ShownByStates, Memory>
    requires { IsInRange (plain_of grammar.now) }
    ensures { IfOk result (HasNoFlags grammar.now) }
{
    let productions = grammar.starts.len() + grammar.productions.len();
    Ok(ShownByStates {
        compared: ComparedLevels {
            tokens: vec![in alloc; false; grammar.tokens.len()]?,
            productions: vec![in alloc; false; productions]?,
        },
        reduced: vec![in alloc; false; productions]?,
        on_errors: vec![in alloc; false; grammar.nonterminals.len()]?,
    })
}

/// Sets the flags for what a state shows.
fn show_state<const W: usize>(
    alloc: Global,
    shown: &mut ShownByStates,
    grammar: &Grammar,
    automaton: &Automaton<W>,
    table: &Table,
    state: &ClosedState<W>,
) -> Result<(), Memory>
    requires fits { FitsSets W grammar.now }
    requires automaton { IsAutomaton (plain_of grammar.now) automaton.now }
    requires table { (mode : Mode) × IsTableOf grammar.now automaton.now mode table.now }
    requires state { IsClosedState grammar.now automaton.now state.now.number state.now.closed }
    requires flags { AreFlagsOf grammar.now shown.old }
    ensures { OnOk result (ShowsState grammar.now automaton.now table.now state.now.number shown.old shown.new) }
{
    let edges = automaton.edges[state.number as usize].as_slice();
    let shifts = shifts_of(alloc, grammar.tokens.len(), edges)?;
    mark_state(
        &mut shown.compared,
        grammar,
        shifts.as_slice(),
        state.closed.items.as_slice(),
    );
    mark_reduced(&mut shown.reduced, table, state.number);
    mark_on_errors(&mut shown.on_errors, grammar, automaton, table, state);
    Ok(())
}

/// Sets the flags for what all states show.
fn show_all<const W: usize>(
    alloc: Global,
    shown: &mut ShownByStates,
    grammar: &Grammar,
    closer: &mut ClosureBuilder<W>,
    automaton: &Automaton<W>,
    table: &Table,
) -> Result<(), Memory>
    requires fits { FitsSets W grammar.now }
    requires automaton { IsAutomaton (plain_of grammar.now) automaton.now }
    requires table { (mode : Mode) × IsTableOf grammar.now automaton.now mode table.now }
    requires closer { IsClosureBuilder (plain_of grammar.now) closer.old }
    requires none { HasNoFlags grammar.now shown.old }
    ensures { OnOk result (AreShown grammar.now automaton.now table.now (length automaton.now.kernels) shown.new) }
{
    for number in 0..automaton.kernels.len() {
        let state = close_state(alloc, grammar, closer, automaton, number as u32)?;
        show_state(alloc, shown, grammar, automaton, table, &state)?;
    }
    Ok(())
}

/// Returns what the states of an automaton and of its table show. Fails only if memory runs out.
pub fn shown_by_states<const W: usize>(
    alloc: Global,
    grammar: &Grammar,
    automaton: &Automaton<W>,
    table: &Table,
) -> Result<ShownByStates, Memory>
    requires fits { FitsSets W grammar.now }
    requires automaton { IsAutomaton (plain_of grammar.now) automaton.now }
    requires table { (mode : Mode) × IsTableOf grammar.now automaton.now mode table.now }
    ensures { IfOk result (IsShown grammar.now automaton.now table.now) }
{
    let mut closer = ClosureBuilder::new(alloc, grammar)?;
    let mut shown = no_flags(alloc, grammar)?;
    show_all(alloc, &mut shown, grammar, &mut closer, automaton, table)?;
    Ok(shown)
}
