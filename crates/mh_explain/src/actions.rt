//! The lines of the raw actions of a state on a look, and of the action that the table takes. Each `write_` function
//! appends to a text.
ghost use Rattle.std.specs.Prelude.{◌≡◌, ◌<◌, ◌≤◌, ◌++◌, ◌∷◌, [], codes, length, IfOk, OnOk, MatchBool};
ghost use Rattle.std.specs.List.{All};
ghost use Rattle.mh_grammar.specs.Edges.{IsRising, IsEdgeBefore};
ghost use Rattle.mh_grammar.specs.Plain.{plain_of, IsLookBelow};
ghost use Rattle.mh_items.specs.Fitting.{FitsSets};
ghost use Rattle.mh_items_kernels.specs.Kernels.{IsItemList, IsKernelItem};
ghost use Rattle.mh_resolve_cells.specs.States.{shift_on as shift_of};
ghost use Rattle.mh_tables_core.specs.Run.{run_move_of};
ghost use Rattle.mh_explain.specs.StateActions.{place_text, reduction_lines, reduction_title, reduction_line, shift_line, shift_lines, taken_line};
ghost use Rattle.mh_explain.specs.code.ChosenItems.{AreChosen, AreItemActions, GivesAction, IsBeforeLook, IsCompleteOn, IsPlaceIn};
ghost use Rattle.mh_explain.specs.code.Searched.{AppendsText};

use mh_grammar::{Edge, Grammar, Look, Memory, Symbol, Token, find_edge};
use mh_grammar_texts::{write_between, write_production, write_sides};
use mh_items_kernels::{KernelItem, symbol_at};
use mh_tables_core::{NextAction, Place, Table, choose};
use std::alloc::Global;

/// The kinds of raw actions of a state on a look.
#[derive(Clone, Copy)]
pub(crate) enum RawAction {
    Shift,
    Reduce,
}

/// True if the dot of the item is before the look; never at the end of the stream.
fn is_before<const W: usize>(grammar: &Grammar, item: &KernelItem<W>, look: Look) -> bool
    requires fits { FitsSets W grammar.now }
    requires item { IsKernelItem (plain_of grammar.now) item.now }
    ensures { MatchBool result (IsBeforeLook grammar.now look item.now) (IsBeforeLook grammar.now look item.now → ⊥) }
{
    match look {
        Look::Token(token) => {
            symbol_at(grammar, item.production, item.dot) == Some(Symbol::T(token))
        }
        Look::End => false,
    }
}

/// True if the item is complete and has the look.
fn is_complete_on<const W: usize>(grammar: &Grammar, item: &KernelItem<W>, look: Look) -> bool
    requires fits { FitsSets W grammar.now }
    requires item { IsKernelItem (plain_of grammar.now) item.now }
    requires look { IsLookBelow (length grammar.now.tokens) look }
    ensures { MatchBool result (IsCompleteOn grammar.now look item.now) (IsCompleteOn grammar.now look item.now → ⊥) }
{
    symbol_at(grammar, item.production, item.dot).is_none() && item.looks.contains(look)
}

/// The production and the dot of an item.
fn place_of<const W: usize>(item: &KernelItem<W>) -> Place
    ensures production { result.production ≡ item.now.production }
    ensures dot { result.dot ≡ item.now.dot }
{
    Place {
        production: item.production,
        dot: item.dot,
    }
}

/// True if a closure with the item gives a raw action of this kind on the look.
fn has_action<const W: usize>(
    grammar: &Grammar,
    item: &KernelItem<W>,
    look: Look,
    kind: RawAction,
) -> bool
    requires fits { FitsSets W grammar.now }
    requires item { IsKernelItem (plain_of grammar.now) item.now }
    requires look { IsLookBelow (length grammar.now.tokens) look }
    ensures { MatchBool result (GivesAction kind grammar.now look item.now) (GivesAction kind grammar.now look item.now → ⊥) }
{
    match kind {
        RawAction::Shift => is_before(grammar, item, look),
        RawAction::Reduce => is_complete_on(grammar, item, look),
    }
}

/// The items that give a raw action of this kind on the look, in order.
fn items_for<const W: usize>(
    alloc: Global,
    grammar: &Grammar,
    items: &[KernelItem<W>],
    look: Look,
    kind: RawAction,
) -> Result<Vec<Place>, Memory>
    requires fits { FitsSets W grammar.now }
    requires items { IsItemList (plain_of grammar.now) (record { items = items.now }) }
    requires look { IsLookBelow (length grammar.now.tokens) look }
    ensures { IfOk result (λ places. AreChosen (GivesAction kind grammar.now look) items.now places.items) }
{
    let mut places = Vec::new(alloc);
    for item in items {
        if has_action(grammar, item, look, kind) {
            places.push(place_of(item))?;
        }
    }
    Ok(places)
}

/// Appends the item without its lookahead set, and ends the line.
fn write_place(text: &mut Vec<u8>, grammar: &Grammar, place: Place) -> Result<(), Memory>
    requires { IsPlaceIn grammar.now place }
    ensures { OnOk result (text.new.items ≡ text.old.items ++ (place_text grammar.now place ++ codes "\n")) }
{
    write_sides(text, grammar, place.production, Some(place.dot))?;
    text.push(b'\n')?;
    Ok(())
}

/// Appends the line of an item whose token is shifted to the target.
fn write_shift(
    text: &mut Vec<u8>,
    grammar: &Grammar,
    target: u32,
    place: Place,
) -> Result<(), Memory>
    requires { IsPlaceIn grammar.now place }
    ensures { OnOk result (text.new.items ≡ text.old.items ++ shift_line grammar.now target place) }
{
    write_between(text, b"  shift ", target, b": ")?;
    write_place(text, grammar, place)
}

/// Appends the lines of items whose token is shifted to the target, or nothing if there is no shift.
fn write_shifts(
    text: &mut Vec<u8>,
    grammar: &Grammar,
    target: Option<u32>,
    places: &[Place],
) -> Result<(), Memory>
    requires { All (IsPlaceIn grammar.now) places.now }
    ensures { OnOk result (text.new.items ≡ text.old.items ++ shift_lines grammar.now target places.now) }
{
    let Some(state) = target else {
        return Ok(());
    };
    for place in places {
        write_shift(text, grammar, state, *place)?;
    }
    Ok(())
}

/// Appends the beginning of the line of a complete item.
fn write_reduction_title(
    text: &mut Vec<u8>,
    grammar: &Grammar,
    production: u32,
) -> Result<(), Memory>
    ensures { OnOk result (text.new.items ≡ text.old.items ++ reduction_title grammar.now production) }
{
    if (production as usize) < grammar.starts.len() {
        text.extend_from_slice(b"  accept: ")?;
    } else {
        text.extend_from_slice(b"  reduce: ")?;
    }
    Ok(())
}

/// Appends the line of a complete item.
fn write_reduction(text: &mut Vec<u8>, grammar: &Grammar, place: Place) -> Result<(), Memory>
    requires { IsPlaceIn grammar.now place }
    ensures { OnOk result (text.new.items ≡ text.old.items ++ reduction_line grammar.now place) }
{
    write_reduction_title(text, grammar, place.production)?;
    write_place(text, grammar, place)
}

/// Appends the lines of complete items.
fn write_reductions(text: &mut Vec<u8>, grammar: &Grammar, places: &[Place]) -> Result<(), Memory>
    requires { All (IsPlaceIn grammar.now) places.now }
    ensures { OnOk result (text.new.items ≡ text.old.items ++ reduction_lines grammar.now places.now) }
{
    for place in places {
        write_reduction(text, grammar, *place)?;
    }
    Ok(())
}

/// The target of the edge on a look, if there is one; there is none at the end of the stream.
fn shift_on(edges: &[Edge], look: Look) -> Option<u32>
    requires { IsRising IsEdgeBefore edges.now }
    ensures { result ≡ shift_of edges.now look }
{
    match look {
        Look::Token(token) => find_edge(edges, Symbol::T(token)),
        Look::End => None,
    }
}

/// Appends the raw actions of a state on a look, from the items of its closure and from its edges.
pub(crate) fn write_actions<const W: usize>(
    alloc: Global,
    text: &mut Vec<u8>,
    grammar: &Grammar,
    items: &[KernelItem<W>],
    edges: &[Edge],
    look: Look,
) -> Result<(), Memory>
    requires fits { FitsSets W grammar.now }
    requires items { IsItemList (plain_of grammar.now) (record { items = items.now }) }
    requires edges { IsRising IsEdgeBefore edges.now }
    requires look { IsLookBelow (length grammar.now.tokens) look }
    ensures { OnOk result (AppendsText (AreItemActions grammar.now items.now edges.now look) text.old.items text.new.items) }
{
    let shifts = items_for(alloc, grammar, items, look, RawAction::Shift)?;
    write_shifts(text, grammar, shift_on(edges, look), &shifts)?;
    let reductions = items_for(alloc, grammar, items, look, RawAction::Reduce)?;
    write_reductions(text, grammar, &reductions)
}

/// Appends the action that the table takes in a state on a token.
pub(crate) fn write_taken(
    text: &mut Vec<u8>,
    grammar: &Grammar,
    table: &Table,
    state: u32,
    token: Token,
) -> Result<(), Memory>
    requires state { state < length table.now.states }
    requires token { token < table.now.grammar.tokens }
    ensures { OnOk result (text.new.items ≡ text.old.items ++ taken_line grammar.now (run_move_of table.now state (token ∷ []))) }
{
    match choose(table, state, Some(token)) {
        NextAction::Accept => text.extend_from_slice(b"  taken: accept\n")?,
        // With a token given, no state asks for one.
        NextAction::Ask => {}
        NextAction::Refuse => text.extend_from_slice(b"  taken: error\n")?,
        NextAction::Shift(target) => {
            write_between(text, b"  taken: shift ", target, b"\n")?;
        }
        NextAction::Reduce(production) => {
            text.extend_from_slice(b"  taken: reduce ")?;
            write_production(text, grammar, production)?;
            text.push(b'\n')?;
        }
    }
    Ok(())
}
