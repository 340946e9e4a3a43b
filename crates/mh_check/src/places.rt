//! The places of checked sentences, by the states in which they fail.
ghost use Rattle.std.specs.Prelude.{◌≡◌, ◌+◌, ◌<◌, [], ◌∷◌, List, IfOk, MatchResult, length};
ghost use Rattle.std.specs.List.{AllByRecursion};
ghost use Rattle.mh_msgfile.specs.Messages.{IsSentenceOf};
ghost use Rattle.mh_msgfile.specs.declared.messages.MsgSentence.{MsgSentence as MsgSentence'};
ghost use Rattle.mh_check.specs.Checks.{BreaksSoundness, FailsIn};
ghost use Rattle.mh_check.specs.Compiling.{ReportsCheckFault};
ghost use Rattle.mh_check.specs.code.Places.{EntrySentence, entry_sentence, sentences_of_entry, ArePlaces, PlacesAllSentences, PlacesMoreSentences, listed_places};

use crate::compiling::CheckFault;
use mh_grammar::Memory;
use mh_msgfile::{Entry, MsgSentence};
use mh_run::{Verdict, verdict};
use mh_tables_core::{Halting, Table};
use std::alloc::Global;

/// The place in the file (line and entry) of the sentence that fails in a state.
#[derive(Clone, Copy)]
pub struct SentencePlace {
    /// The number of its line, from 1.
    pub(crate) line: u32,
    /// The index of its entry, from 0.
    pub(crate) entry: usize,
}

/// The list in which no state has a place.
fn no_places(alloc: Global, table: &Table) -> Result<Vec<Option<SentencePlace>>, Memory>
    ensures size { IfOk result (λ places. length places.items ≡ length table.now.states) }
    ensures none { IfOk result (λ places. ArePlaces table.now [] places.items) }
{
    let places = vec![in alloc; None; table.states() as usize]?;
    Ok(places)
}

/// Returns the state that refuses the last token of a sentence, or the reason why no state does. Fails with `Memory`
/// only if memory runs out.
pub fn failing_state(
    alloc: Global,
    table: &Halting,
    sentence: &MsgSentence,
) -> Result<u32, CheckFault>
    requires { IsSentenceOf (length table.now.grammar.starts) table.now.grammar.tokens sentence.now }
    ensures known { IfOk result (λ state. state < length table.now.states) }
    ensures fails { MatchResult result (λ state. FailsIn table.now sentence.now state) (λ fault. (earlier : List MsgSentence') → ReportsCheckFault fault (BreaksSoundness table.now earlier sentence.now)) }
{
    let line = sentence.line;
    let tokens = sentence.tokens.as_slice();
    let _facts = table.table();
    let ended = match verdict(alloc, table, sentence.start, tokens) {
        Ok(ended) => ended,
        Err(Memory) => return Err(CheckFault::Memory),
    };
    match ended {
        Verdict::Reject { at, state } if at as usize + 1 == tokens.len() => Ok(state),
        Verdict::Reject { at, .. } => Err(CheckFault::RefusedEarly { line, at }),
        Verdict::Accept { .. } => Err(CheckFault::NotRefused {
            line,
            verdict: ended,
        }),
        Verdict::Overshoot { .. } => Err(CheckFault::NotRefused {
            line,
            verdict: ended,
        }),
    }
}

/// Records the place of a sentence for the state in which the sentence fails; returns a fault if the state has a place
/// already.
fn place_sentence(
    alloc: Global,
    table: &Halting,
    places: &mut Vec<Option<SentencePlace>>,
    sentence: &MsgSentence,
    entry: usize,
) -> Result<(), CheckFault>
    requires known { IsSentenceOf (length table.now.grammar.starts) table.now.grammar.tokens sentence.now }
    requires size { length places.old.items ≡ length table.now.states }
    ensures size { length places.new.items ≡ length table.now.states }
    ensures places { (done : List EntrySentence) → ArePlaces table.now done places.old.items → PlacesMoreSentences table.now done (entry_sentence entry sentence.now ∷ []) places.new.items result }
{
    let line = sentence.line;
    let state = match failing_state(alloc, table, sentence) {
        Ok(state) => state,
        Err(fault) => return Err(fault),
    };
    match places[state as usize] {
        Some(earlier) => Err(CheckFault::SharedState {
            first: earlier.line,
            second: line,
            state,
        }),
        None => {
            places[state as usize] = Some(SentencePlace { line, entry });
            Ok(())
        }
    }
}

/// Records the place of each sentence of an entry for the state in which the sentence fails.
fn place_entry(
    alloc: Global,
    table: &Halting,
    places: &mut Vec<Option<SentencePlace>>,
    sentences: &[MsgSentence],
    entry: usize,
) -> Result<(), CheckFault>
    requires known { AllByRecursion (IsSentenceOf (length table.now.grammar.starts) table.now.grammar.tokens) sentences.now }
    requires size { length places.old.items ≡ length table.now.states }
    ensures size { length places.new.items ≡ length table.now.states }
    ensures places { (done : List EntrySentence) → ArePlaces table.now done places.old.items → PlacesMoreSentences table.now done (sentences_of_entry entry sentences.now) places.new.items result }
{
    for sentence in sentences {
        match place_sentence(alloc, table, places, sentence, entry) {
            Ok(()) => {}
            Err(fault) => return Err(fault),
        }
    }
    Ok(())
}

/// Returns the places of the sentences of these entries, by state, or the first fault.
pub(crate) fn place_file(
    alloc: Global,
    table: &Halting,
    entries: &[Entry],
) -> Result<Vec<Option<SentencePlace>>, CheckFault>
    requires { AllByRecursion (λ entry. AllByRecursion (IsSentenceOf (length table.now.grammar.starts) table.now.grammar.tokens) entry.sentences) entries.now }
    ensures { PlacesAllSentences table.now entries.now (listed_places result) }
{
    let Ok(mut places) = no_places(alloc, table.table()) else {
        return Err(CheckFault::Memory);
    };
    for (number, entry) in entries.iter().enumerate() {
        match place_entry(
            alloc,
            table,
            &mut places,
            entry.sentences.as_slice(),
            number,
        ) {
            Ok(()) => {}
            Err(fault) => return Err(fault),
        }
    }
    Ok(places)
}
