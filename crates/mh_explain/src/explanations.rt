//! The explanations of the conflicts of a table, as one text.
ghost use Rattle.std.specs.Prelude.{◌≡◌, ◌≢◌, ◌<◌, ◌≤◌, ◌++◌, length, IfOk, IfSome, OnOk};
ghost use Rattle.std.specs.List.{All, list_any};
ghost use Rattle.mh_grammar.specs.ItemSets.{AreSameItems};
ghost use Rattle.mh_grammar.specs.Plain.{plain_of};
ghost use Rattle.mh_items.specs.Fitting.{FitsSets};
ghost use Rattle.mh_items.specs.code.ClosureBuilder.{IsClosureBuilder};
ghost use Rattle.mh_items_kernels.specs.Automaton.{closure_of};
ghost use Rattle.mh_items_kernels.specs.Kernels.{Holds, IsItemList};
ghost use Rattle.mh_resolve_cells.specs.Conflicts.{AreConflicts, IsConflictOf};
ghost use Rattle.mh_explain.specs.Explanations.{AreEndLines, AreExplanations, AreNextLines, ExplainsConflict, found_line, next_token as next_of};
ghost use Rattle.mh_explain.specs.code.Searched.{AppendsText, IsTabled, is_explained as is_explained_kind};

use crate::actions::{write_actions, write_taken};
use crate::first_sentence::{FoundSentence, first_sentence};
use mh_grammar::{Grammar, Look, Memory, Token, token_name};
use mh_items::ClosureBuilder;
use mh_items_kernels::{Automaton, KernelItem};
use mh_msgfile::write_sentence;
use mh_reach::{Reach, reach};
use mh_report_notation::write_conflict;
use mh_resolve_cells::{Conflict, ConflictKind};
use mh_tables_core::Halting;
use std::alloc::Global;

/// A grammar with its automaton, and the results of the search over its table.
#[derive(Drop)]
struct Searched<'a, const W: usize> {
    grammar: &'a Grammar,
    automaton: &'a Automaton<W>,
    reach: &'a Reach<'a>,
}

/// Appends the line of the first sentence.
fn write_found(text: &mut Vec<u8>, grammar: &Grammar, found: &FoundSentence) -> Result<(), Memory>
    ensures { OnOk result (text.new.items ≡ text.old.items ++ found_line grammar.now found.now) }
{
    match found {
        FoundSentence::NoSentence => text.extend_from_slice(b"  no sentence comes here\n")?,
        FoundSentence::TooLong => text.extend_from_slice(b"  longer than 1000000\n")?,
        FoundSentence::First { sentence, next, .. } => {
            text.extend_from_slice(b"  ")?;
            write_sentence(text, grammar, sentence.start, sentence.tokens.as_slice())?;
            text.extend_from_slice(b" . ")?;
            text.extend_from_slice(token_name(grammar, *next))?;
            text.push(b'\n')?;
        }
    }
    Ok(())
}

/// The token on which the actions are shown, if there is one.
fn next_token(look: Look, found: &FoundSentence) -> Option<Token>
    ensures { result ≡ next_of look found.now }
{
    match look {
        Look::Token(token) => Some(token),
        Look::End => match found {
            FoundSentence::First { next, .. } => Some(*next),
            FoundSentence::NoSentence | FoundSentence::TooLong => None,
        },
    }
}

/// Appends the actions at the end of the stream, if the conflict is there.
fn write_at_end<const W: usize>(
    alloc: Global,
    text: &mut Vec<u8>,
    searched: &Searched<'_, W>,
    state: u32,
    items: &[KernelItem<W>],
    look: Look,
) -> Result<(), Memory>
    requires fits { FitsSets W searched.now.grammar.now }
    requires fit { IsTabled searched.now.grammar.now searched.now.automaton.now searched.now.reach.now }
    requires state { state < length searched.now.automaton.now.kernels }
    requires items { IsItemList (plain_of searched.now.grammar.now) (record { items = items.now }) }
    requires closed { AreSameItems (Holds (record { items = items.now })) (closure_of (plain_of searched.now.grammar.now) searched.now.automaton.now state) }
    ensures { OnOk result (AppendsText (AreEndLines searched.now.grammar.now searched.now.automaton.now state look) text.old.items text.new.items) }
{
    match look {
        Look::Token(_) => Ok(()),
        Look::End => {
            let edges = searched.automaton.edges[state as usize].as_slice();
            write_actions(alloc, text, searched.grammar, items, edges, look)
        }
    }
}

/// Appends the actions on the next token, and the action that the table takes.
fn write_at_next<const W: usize>(
    alloc: Global,
    text: &mut Vec<u8>,
    searched: &Searched<'_, W>,
    state: u32,
    items: &[KernelItem<W>],
    next: Option<Token>,
) -> Result<(), Memory>
    requires fits { FitsSets W searched.now.grammar.now }
    requires fit { IsTabled searched.now.grammar.now searched.now.automaton.now searched.now.reach.now }
    requires state { state < length searched.now.automaton.now.kernels }
    requires next { IfSome next (λ token. token < length searched.now.grammar.now.tokens) }
    requires items { IsItemList (plain_of searched.now.grammar.now) (record { items = items.now }) }
    requires closed { AreSameItems (Holds (record { items = items.now })) (closure_of (plain_of searched.now.grammar.now) searched.now.automaton.now state) }
    ensures { OnOk result (AppendsText (AreNextLines searched.now.grammar.now searched.now.automaton.now searched.now.reach.now state next) text.old.items text.new.items) }
{
    match next {
        None => Ok(()),
        Some(token) => {
            let grammar = searched.grammar;
            let edges = searched.automaton.edges[state as usize].as_slice();
            let table = searched.reach.table().table();
            write_actions(alloc, text, grammar, items, edges, Look::Token(token))?;
            write_taken(text, grammar, table, state, token)
        }
    }
}

/// Appends the explanation of a conflict that precedence levels do not solve.
fn write_explanation<const W: usize>(
    alloc: Global,
    text: &mut Vec<u8>,
    searched: &Searched<'_, W>,
    closer: &mut ClosureBuilder<W>,
    conflict: &Conflict,
) -> Result<(), Memory>
    requires fits { FitsSets W searched.now.grammar.now }
    requires fit { IsTabled searched.now.grammar.now searched.now.automaton.now searched.now.reach.now }
    requires closer { IsClosureBuilder (plain_of searched.now.grammar.now) closer.old }
    requires conflict { IsConflictOf searched.now.grammar.now searched.now.automaton.now conflict.now }
    requires unsolved { conflict.now.kind ≢ ConflictKind.Solved }
    ensures text { OnOk result (AppendsText (ExplainsConflict searched.now.grammar.now searched.now.automaton.now searched.now.reach.now conflict.now.state conflict.now.look conflict.now.kind) text.old.items text.new.items) }
    ensures closer { OnOk result (IsClosureBuilder (plain_of searched.now.grammar.now) closer.new) }
{
    let grammar = searched.grammar;
    let (state, look) = (conflict.state, conflict.look);
    let found = first_sentence(alloc, searched.reach, state, look)?;
    write_conflict(text, grammar, state, look, conflict.kind)?;
    write_found(text, grammar, &found)?;
    let next = next_token(look, &found);
    let closed = closer.close(alloc, grammar, &searched.automaton.kernels[state as usize])?;
    let items = closed.items.as_slice();
    write_at_end(alloc, text, searched, state, items, look)?;
    write_at_next(alloc, text, searched, state, items, next)?;
    text.push(b'\n')?;
    Ok(())
}

/// True if the conflict has an explanation: precedence levels do not solve it.
fn is_explained(kind: ConflictKind) -> bool
    ensures { result ≡ is_explained_kind kind }
{
    match kind {
        ConflictKind::Solved => false,
        ConflictKind::Unsolved | ConflictKind::Stream => true,
    }
}

/// True if some of the conflicts have an explanation.
fn has_explained(conflicts: &[Conflict]) -> bool
    ensures { result ≡ list_any (λ c. is_explained_kind c.kind) conflicts.now }
{
    conflicts.iter().any(|conflict| is_explained(conflict.kind))
}

/// Makes the explanations of the conflicts, in order.
fn explanations<const W: usize>(
    alloc: Global,
    searched: &Searched<'_, W>,
    conflicts: &[Conflict],
) -> Result<Vec<u8>, Memory>
    requires fits { FitsSets W searched.now.grammar.now }
    requires fit { IsTabled searched.now.grammar.now searched.now.automaton.now searched.now.reach.now }
    requires conflicts { All (IsConflictOf searched.now.grammar.now searched.now.automaton.now) conflicts.now }
    ensures { IfOk result (λ text. AreExplanations searched.now.grammar.now searched.now.automaton.now searched.now.reach.now conflicts.now text.items) }
{
    let mut closer = ClosureBuilder::new(alloc, searched.grammar)?;
    let mut text = Vec::new(alloc);
    for conflict in conflicts {
        if is_explained(conflict.kind) {
            write_explanation(alloc, &mut text, searched, &mut closer, conflict)?;
        }
    }
    Ok(text)
}

/// Returns the explanations of the conflicts of a table that precedence levels do not solve, in their order: for each
/// the first sentence that comes to the state with the token of the conflict next, the raw actions of the state on the
/// token, and the action that the table takes. The conflicts must be those of the automaton, and the table must be its
/// table. Without such a conflict nothing is searched. Fails only if memory runs out.
pub fn explanation_text<const W: usize>(
    alloc: Global,
    grammar: &Grammar,
    automaton: &Automaton<W>,
    table: &Halting,
    conflicts: &[Conflict],
) -> Result<Vec<u8>, Memory>
    requires fits { FitsSets W grammar.now }
    requires tabled { IsTabled grammar.now automaton.now table.now }
    requires conflicts { AreConflicts grammar.now automaton.now conflicts.now }
    ensures { IfOk result (λ text. AreExplanations grammar.now automaton.now table.now conflicts.now text.items) }
{
    if !has_explained(conflicts) {
        return Ok(Vec::new(alloc));
    }
    let reached = reach(alloc, table)?;
    let searched = Searched {
        grammar,
        automaton,
        reach: &reached,
    };
    explanations(alloc, &searched, conflicts)
}
