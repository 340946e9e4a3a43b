//! The productions that the states of a table reduce, and the nonterminals that they reduce on errors.
ghost use Rattle.std.specs.Prelude.{◌≡◌, ◌<◌, ◌≤◌, ◌*◌, ◌↔◌, ℕ, Some, length, IsTrue};
ghost use Rattle.std.specs.List.{Contains};
ghost use Rattle.mh_grammar.specs.declared.types.Look.{Look as LookOf};
ghost use Rattle.mh_grammar.specs.Plain.{production_count};
ghost use Rattle.mh_items.specs.Fitting.{FitsSets};
ghost use Rattle.mh_resolve_cells.specs.declared.kinds.Mode.{Mode};
ghost use Rattle.mh_resolve_cells.specs.States.{IsTableOf};
ghost use Rattle.mh_tables_core.specs.Table.{state_at};
ghost use Rattle.mh_tables_core.specs.declared.parts.Action.TheVariants as actions;
ghost use Rattle.mh_tables_core.specs.declared.parts.Fallback.TheVariants as fallbacks;
ghost use Rattle.mh_lint_states.specs.Reductions.{Reduces, ReducesOnErrors};
ghost use Rattle.mh_lint_states.specs.code.ClosedStates.{IsClosedState};
ghost use Rattle.mh_lint_states.specs.code.FilledCells.{HasFilledCell, IsCompleteItem, IsFilledCell, IsLookOf};
ghost use Rattle.mh_lint_states.specs.code.Marks.{Marks};

use crate::states::{ClosedState, is_complete};
use mh_grammar::{Grammar, Look, Token};
use mh_items_kernels::{Automaton, KernelItem};
use mh_resolve_settle::on_error_production;
use mh_sets::TokenSet;
use mh_tables_core::{Action, Fallback, Table};

/// Marks the production that an action reduces, if the action is a reduction.
fn mark_action(reduced: &mut Vec<bool>, action: Action)
    requires { (p : ℕ) → action ≡ actions.Reduce p → p < length reduced.old.items }
    ensures { Marks (λ p. action ≡ actions.Reduce p) reduced.old.items reduced.new.items }
{
    if let Action::Reduce(production) = action {
        reduced[production as usize] = true;
    }
}

/// Marks the production that is the default of a state, if there is one.
#[tactic(auto, unfolding(mh_tables_core::specs::Table::fallback_of))]
fn mark_default(reduced: &mut Vec<bool>, table: &Table, state: u32)
    requires state { state < length table.now.states }
    requires size { length reduced.old.items ≡ production_count table.now.grammar }
    ensures { Marks (λ p. (state_at table.now state).fallback ≡ Some (fallbacks.Reduce p)) reduced.old.items reduced.new.items }
{
    table.facts();
    if let Some(Fallback::Reduce(production)) = table.fallback(state) {
        reduced[production as usize] = true;
    }
}

/// Marks the productions that a state reduces.
pub(crate) fn mark_reduced(reduced: &mut Vec<bool>, table: &Table, state: u32)
    requires state { state < length table.now.states }
    requires size { length reduced.old.items ≡ production_count table.now.grammar }
    ensures { Marks (Reduces table.now state) reduced.old.items reduced.new.items }
{
    table.facts();
    mark_default(reduced, table, state);
    for token in 0..table.tokens() {
        mark_action(reduced, table.action(state, token));
    }
}

/// Returns true if the item is the complete item of this production.
fn is_complete_item<const W: usize>(
    grammar: &Grammar,
    item: &KernelItem<W>,
    production: u32,
) -> bool
    ensures { IsTrue result ↔ IsCompleteItem grammar.now production item.now }
{
    item.production == production && is_complete(grammar, item)
}

/// The looks of the complete item of a production; there are none if the list does not have the item.
fn looks_of<const W: usize>(
    grammar: &Grammar,
    items: &[KernelItem<W>],
    production: u32,
) -> TokenSet<W>
    requires few { W ≤ 8 }
    ensures { (look : LookOf) → Contains result look ↔ IsLookOf grammar.now items.now production look }
{
    let mut looks = TokenSet::empty();
    for item in items {
        if is_complete_item(grammar, item, production) {
            looks.union_into(&item.looks);
        }
    }
    looks
}

/// Returns true if the cell of a token reduces this production, and the token is none of these looks.
#[tactic(auto, unfolding(mh_tables_core::specs::Table::cell_of))]
fn is_filled<const W: usize>(
    table: &Table,
    state: u32,
    looks: &TokenSet<W>,
    production: u32,
    token: Token,
) -> bool
    requires state { state < length table.now.states }
    requires tokens { table.now.grammar.tokens ≤ 64 * W }
    requires token { token < table.now.grammar.tokens }
    ensures { IsTrue result ↔ IsFilledCell table.now state looks.now production token }
{
    match table.action(state, token) {
        Action::Reduce(reduced) => { reduced == production && !looks.contains(Look::Token(token)) }
        _ => false,
    }
}

/// Returns true if some cell of a state reduces this production on a token that is none of these looks.
fn has_filled<const W: usize>(
    table: &Table,
    state: u32,
    looks: &TokenSet<W>,
    production: u32,
) -> bool
    requires state { state < length table.now.states }
    requires tokens { table.now.grammar.tokens ≤ 64 * W }
    ensures { IsTrue result ↔ HasFilledCell table.now state looks.now production }
{
    for token in 0..table.tokens() {
        if is_filled(table, state, looks, production, token) {
            return true;
        }
    }
    false
}

/// Marks the nonterminal of which a state reduces a production on errors, if there is one.
pub(crate) fn mark_on_errors<const W: usize>(
    on_errors: &mut Vec<bool>,
    grammar: &Grammar,
    automaton: &Automaton<W>,
    table: &Table,
    state: &ClosedState<W>,
)
    requires fits { FitsSets W grammar.now }
    requires table { (mode : Mode) × IsTableOf grammar.now automaton.now mode table.now }
    requires state { IsClosedState grammar.now automaton.now state.now.number state.now.closed }
    requires size { length on_errors.old.items ≡ length grammar.now.nonterminals }
    ensures { Marks (ReducesOnErrors grammar.now automaton.now table.now state.now.number) on_errors.old.items on_errors.new.items }
{
    table.facts();
    if table.fallback(state.number).is_some() {
        return;
    }
    if let Some(production) = on_error_production(grammar, state.closed.items.as_slice()) {
        let looks = looks_of(grammar, state.closed.items.as_slice(), production);
        if has_filled(table, state.number, &looks, production) {
            on_errors[usize::from(table.lhs_of(production))] = true;
        }
    }
}
