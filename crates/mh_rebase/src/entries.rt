//! The decisions on the lines of a file, in order. The text of what is kept and the report of what is dropped are
//! written at the same time.
ghost use Rattle.std.specs.Prelude.{◌≡◌, ◌<◌, ◌^◌, ◌++◌, ◌∷◌, [], true, length, IfOk, OnOk};
ghost use Rattle.std.specs.List.{All, AllByRecursion};
ghost use Rattle.mh_grammar.specs.Plain.{plain_of};
ghost use Rattle.mh_report.specs.FitsStates.{FitsStates};
ghost use Rattle.mh_msgfile.specs.Sentences.{vocabulary_in, vocabulary_of, IsSentence, sentence_in};
ghost use Rattle.mh_rebase.specs.RebasedText.{message_if_kept};
ghost use Rattle.mh_tables_core.specs.Failing.{Fails};
ghost use Rattle.mh_rebase.specs.code.Parts.{DecidesEntries, DropsFault, DecidesLine, DecidesLines, WritesKeptSentence};

use crate::dropping::{write_commented, write_dropped};
use crate::keeping::{reason_of_fault, state_to_keep};
use mh_grammar::{Grammar, Memory, Sentence};
use mh_items_kernels::Automaton;
use mh_msgfile::{Lexicon, LooseEntry, LooseLine, SentenceFault, write_sentence};
use mh_report::{write_comments, write_expected};
use mh_run::trace;
use mh_tables_core::Halting;
use std::alloc::Global;

/// The grammar onto which a file is rebased, with its automaton, its table, and the numbers of its names; and the form
/// of the comment lines.
#[derive(Drop)]
pub(crate) struct Target<'a, const W: usize> {
    pub(crate) grammar: &'a Grammar,
    pub(crate) automaton: &'a Automaton<W>,
    pub(crate) table: &'a Halting,
    pub(crate) lexicon: &'a Lexicon,
    /// Whether the comment lines of kept and new sentences end with the expected tokens.
    pub(crate) expected: bool,
    ghost same: { table.now.grammar ≡ plain_of grammar.now },
    ghost numbers: { vocabulary_in lexicon.now ≡ vocabulary_of grammar.now },
}

/// The texts made from the lines so far.
#[derive(Drop)]
pub(crate) struct Parts {
    /// The entries with a kept sentence.
    pub(crate) kept: Vec<u8>,
    /// The report of what was dropped.
    pub(crate) dropped: Vec<u8>,
    /// For each state, the number of the kept line whose sentence fails there.
    pub(crate) kept_lines: Vec<Option<u32>>,
}

/// Appends the canonical line of a sentence that fails in this state, and its comment lines, with the expected tokens
/// if they are asked for.
fn write_kept<const W: usize>(
    alloc: Global,
    text: &mut Vec<u8>,
    to: &Target<'_, W>,
    sentence: &Sentence,
    state: u32,
    reduced: &[u32],
) -> Result<(), Memory>
    requires fits { FitsStates W to.now.grammar.now to.now.automaton.now to.now.table.now }
    requires state { state < length to.now.table.now.states }
    requires fails { Fails to.now.table.now sentence.now.start sentence.now.tokens state }
    requires few { length sentence.now.tokens < 2 ^ 32 }
    ensures { OnOk result (WritesKeptSentence to.now.expected to.now.grammar.now to.now.automaton.now to.now.table.now sentence.now state reduced.now text.old.items text.new.items) }
{
    let tokens = sentence.tokens.as_slice();
    write_sentence(text, to.grammar, sentence.start, tokens)?;
    text.push(b'\n')?;
    let items = to.automaton.kernels[state as usize].items.as_slice();
    write_comments(text, to.grammar, state, items, reduced)?;
    if !to.expected {
        return Ok(());
    }
    write_expected(alloc, text, to.grammar, to.table, sentence.start, tokens)
}

/// Keeps a sentence, or drops its line, by the verdict on the sentence. Returns true if the sentence is kept.
fn add_sentence<const W: usize>(
    alloc: Global,
    to: &Target<'_, W>,
    parts: &mut Parts,
    line: u32,
    sentence: &Sentence,
) -> Result<bool, Memory>
    requires fits { FitsStates W to.now.grammar.now to.now.automaton.now to.now.table.now }
    requires start { sentence.now.start < length to.now.grammar.now.starts }
    requires tokens { All (λ z. z < length to.now.grammar.now.tokens) sentence.now.tokens }
    requires few { length sentence.now.tokens < 2 ^ 32 }
    requires size { length parts.old.kept_lines.items ≡ length to.now.table.now.states }
    ensures size { length parts.new.kept_lines.items ≡ length parts.old.kept_lines.items }
    ensures line { IfOk result (λ kept. DecidesLine to.now.expected to.now.grammar.now to.now.automaton.now to.now.table.now line (IsSentence sentence.now) kept parts.old parts.new) }
{
    let _facts = to.table.table();
    let (verdict, reduced) = trace(alloc, to.table, sentence.start, sentence.tokens.as_slice())?;
    let tokens = sentence.tokens.len();
    match state_to_keep(verdict, tokens, parts.kept_lines.as_slice()) {
        Ok(state) => {
            write_kept(
                alloc,
                &mut parts.kept,
                to,
                sentence,
                state,
                reduced.as_slice(),
            )?;
            parts.kept_lines[state as usize] = Some(line);
            Ok(true)
        }
        Err(reason) => {
            write_dropped(alloc, &mut parts.dropped, line, &reason)?;
            Ok(false)
        }
    }
}

/// Drops a line that is no sentence of the grammar.
fn add_fault(
    alloc: Global,
    parts: &mut Parts,
    line: u32,
    fault: SentenceFault,
) -> Result<(), Memory>
    ensures kept_lines { parts.new.kept_lines.items ≡ parts.old.kept_lines.items }
    ensures kept { parts.new.kept.items ≡ parts.old.kept.items }
    ensures dropped { OnOk result (DropsFault line fault parts.old.dropped.items parts.new.dropped.items) }
{
    let reason = reason_of_fault(fault)?;
    write_dropped(alloc, &mut parts.dropped, line, &reason)
}

/// Keeps or drops a line. Returns true if its sentence is kept.
fn add_line<const W: usize>(
    alloc: Global,
    to: &Target<'_, W>,
    parts: &mut Parts,
    line: &LooseLine,
) -> Result<bool, Memory>
    requires fits { FitsStates W to.now.grammar.now to.now.automaton.now to.now.table.now }
    requires short { length line.now.text < 2 ^ 32 }
    requires size { length parts.old.kept_lines.items ≡ length to.now.table.now.states }
    ensures size { length parts.new.kept_lines.items ≡ length parts.old.kept_lines.items }
    ensures line { IfOk result (λ kept. DecidesLine to.now.expected to.now.grammar.now to.now.automaton.now to.now.table.now line.now.line (sentence_in (vocabulary_of to.now.grammar.now) line.now.text) kept parts.old parts.new) }
{
    match to.lexicon.read(alloc, line.text.as_slice()) {
        Ok(sentence) => add_sentence(alloc, to, parts, line.line, &sentence),
        Err(fault) => {
            add_fault(alloc, parts, line.line, fault)?;
            Ok(false)
        }
    }
}

/// Keeps or drops the lines of an entry. Returns true if some sentence is kept.
fn add_lines<const W: usize>(
    alloc: Global,
    to: &Target<'_, W>,
    parts: &mut Parts,
    lines: &[LooseLine],
) -> Result<bool, Memory>
    requires fits { FitsStates W to.now.grammar.now to.now.automaton.now to.now.table.now }
    requires short { AllByRecursion (λ line. length line.text < 2 ^ 32) lines.now }
    requires size { length parts.old.kept_lines.items ≡ length to.now.table.now.states }
    ensures size { length parts.new.kept_lines.items ≡ length parts.old.kept_lines.items }
    ensures lines { IfOk result (λ kept. DecidesLines to.now.expected to.now.grammar.now to.now.automaton.now to.now.table.now lines.now kept parts.old parts.new) }
{
    let mut kept = false;
    for line in lines {
        kept |= add_line(alloc, to, parts, line)?;
    }
    Ok(kept)
}

/// Appends the message of an entry with a kept sentence.
fn write_message(text: &mut Vec<u8>, message: &[u8]) -> Result<(), Memory>
    ensures { OnOk result (text.new.items ≡ text.old.items ++ message_if_kept true message.now) }
{
    text.push(b'\n')?;
    text.extend_from_slice(message)?;
    text.push(b'\n')?;
    Ok(())
}

/// Keeps or drops the lines of an entry, and writes its message: as the message of the kept sentences, or in the report
/// if no sentence is kept.
fn add_entry<const W: usize>(
    alloc: Global,
    to: &Target<'_, W>,
    parts: &mut Parts,
    entry: &LooseEntry,
) -> Result<(), Memory>
    requires fits { FitsStates W to.now.grammar.now to.now.automaton.now to.now.table.now }
    requires short { AllByRecursion (λ line. length line.text < 2 ^ 32) entry.now.sentences }
    requires size { length parts.old.kept_lines.items ≡ length to.now.table.now.states }
    ensures size { length parts.new.kept_lines.items ≡ length parts.old.kept_lines.items }
    ensures entry { OnOk result (DecidesEntries to.now.expected to.now.grammar.now to.now.automaton.now to.now.table.now (entry.now ∷ []) parts.old parts.new) }
{
    let kept = add_lines(alloc, to, parts, entry.sentences.as_slice())?;
    if kept {
        write_message(&mut parts.kept, entry.message.as_slice())
    } else {
        write_commented(&mut parts.dropped, entry.message.as_slice())
    }
}

/// Keeps or drops the lines of these entries, with their messages.
pub(crate) fn add_entries<const W: usize>(
    alloc: Global,
    to: &Target<'_, W>,
    parts: &mut Parts,
    entries: &[LooseEntry],
) -> Result<(), Memory>
    requires fits { FitsStates W to.now.grammar.now to.now.automaton.now to.now.table.now }
    requires short { AllByRecursion (λ entry. AllByRecursion (λ line. length line.text < 2 ^ 32) entry.sentences) entries.now }
    requires size { length parts.old.kept_lines.items ≡ length to.now.table.now.states }
    ensures size { length parts.new.kept_lines.items ≡ length parts.old.kept_lines.items }
    ensures entries { OnOk result (DecidesEntries to.now.expected to.now.grammar.now to.now.automaton.now to.now.table.now entries.now parts.old parts.new) }
{
    for entry in entries {
        add_entry(alloc, to, parts, entry)?;
    }
    Ok(())
}
