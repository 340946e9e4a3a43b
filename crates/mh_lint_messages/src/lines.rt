//! Writes the report on the sentence lines and the messages of a file. Each function appends to the text of the report,
//! and fails only if memory runs out.
ghost use Rattle.std.specs.Prelude.{◌≡◌, ◌++◌, ◌<◌, ◌^◌, [], ◌∷◌, IfOk, OnOk, codes, length};
ghost use Rattle.std.specs.List.{All, AllByRecursion};
ghost use Rattle.mh_grammar.specs.Plain.{plain_of};
ghost use Rattle.mh_msgfile.specs.Sentences.{vocabulary_in, vocabulary_of, IsSentence, sentence_in};
ghost use Rattle.mh_rebase.specs.Decisions.{Drop};
ghost use Rattle.mh_rebase.specs.ErrorLines as spec;
ghost use Rattle.mh_lint_messages.specs.code.Findings.{DecidesEntries, DecidesLine, DecidesLines, WritesFault};

use bstr::ByteSlice;
use mh_grammar::{Grammar, Memory, Sentence};
use mh_grammar_texts::write_between;
use mh_msgfile::{Lexicon, LooseEntry, LooseLine, SentenceFault};
use mh_rebase::{DropReason, reason_of_fault, state_to_keep, write_reason};
use mh_run::verdict;
use mh_tables_core::Halting;
use std::alloc::Global;

/// The line that `--list-errors` writes in place of a message.
const UNWRITTEN: &[u8] = b"<YOUR SYNTAX ERROR MESSAGE HERE>\n";

/// The grammar for which a file is examined, with its table and the numbers of its names, and the name of the file.
#[derive(Drop)]
pub(crate) struct Examined<'a> {
    pub(crate) grammar: &'a Grammar,
    pub(crate) table: &'a Halting,
    pub(crate) lexicon: &'a Lexicon,
    pub(crate) name: &'a [u8],
    ghost same: { table.now.grammar ≡ plain_of grammar.now },
    ghost numbers: { vocabulary_in lexicon.now ≡ vocabulary_of grammar.now },
}

/// What was found in the lines so far.
#[derive(Drop)]
pub(crate) struct Findings {
    pub(crate) text: Vec<u8>,
    /// For each state, the number of the kept line whose sentence fails there.
    pub(crate) kept_lines: Vec<Option<u32>>,
}

/// Appends the name of the file and the number of a line.
#[tactic(auto, unfolding(mh_rebase::specs::ErrorLines::place))]
pub(crate) fn write_place(text: &mut Vec<u8>, name: &[u8], line: u32) -> Result<(), Memory>
    ensures { OnOk result (text.new.items ≡ text.old.items ++ spec.place name.now line) }
{
    text.extend_from_slice(name)?;
    write_between(text, b":", line, b": ")
}

/// Appends the line of the report on a sentence line that is not kept.
fn add_reason(
    alloc: Global,
    to: &Examined<'_>,
    found: &mut Findings,
    line: u32,
    reason: &DropReason,
) -> Result<(), Memory>
    ensures kept { found.new.kept_lines.items ≡ found.old.kept_lines.items }
    ensures text { OnOk result (found.new.text.items ≡ found.old.text.items
        ++ spec.decision_text to.now.name.now line (Drop reason.now)) }
{
    write_place(&mut found.text, to.name, line)?;
    write_reason(alloc, &mut found.text, reason)
}

/// Keeps a sentence, or appends why its line is not kept.
fn add_sentence(
    alloc: Global,
    to: &Examined<'_>,
    found: &mut Findings,
    line: u32,
    sentence: &Sentence,
) -> Result<(), Memory>
    requires start { sentence.now.start < length to.now.grammar.now.starts }
    requires tokens { All (λ z. z < length to.now.grammar.now.tokens) sentence.now.tokens }
    requires few { length sentence.now.tokens < 2 ^ 32 }
    requires size { length found.old.kept_lines.items ≡ length to.now.table.now.states }
    ensures size { length found.new.kept_lines.items ≡ length found.old.kept_lines.items }
    ensures line { OnOk result (DecidesLine to.now.grammar.now to.now.table.now to.now.name.now line (IsSentence sentence.now) found.old found.new) }
{
    let _facts = to.table.table();
    let ending = verdict(alloc, to.table, sentence.start, sentence.tokens.as_slice())?;
    let tokens = sentence.tokens.len();
    match state_to_keep(ending, tokens, found.kept_lines.as_slice()) {
        Ok(state) => {
            found.kept_lines[state as usize] = Some(line);
            Ok(())
        }
        Err(reason) => add_reason(alloc, to, found, line, &reason),
    }
}

/// Appends the line of the report on a line of the file that is no sentence of the grammar.
fn add_fault(
    alloc: Global,
    to: &Examined<'_>,
    found: &mut Findings,
    line: u32,
    fault: SentenceFault,
) -> Result<(), Memory>
    ensures kept { found.new.kept_lines.items ≡ found.old.kept_lines.items }
    ensures fault { OnOk result (WritesFault to.now.name.now line fault found.old.text.items found.new.text.items) }
{
    let reason = reason_of_fault(fault)?;
    add_reason(alloc, to, found, line, &reason)
}

/// Keeps the sentence of a line, or appends why the line is not kept.
fn add_line(
    alloc: Global,
    to: &Examined<'_>,
    found: &mut Findings,
    line: &LooseLine,
) -> Result<(), Memory>
    requires short { length line.now.text < 2 ^ 32 }
    requires size { length found.old.kept_lines.items ≡ length to.now.table.now.states }
    ensures size { length found.new.kept_lines.items ≡ length found.old.kept_lines.items }
    ensures line { OnOk result (DecidesLine to.now.grammar.now to.now.table.now to.now.name.now line.now.line (sentence_in (vocabulary_of to.now.grammar.now) line.now.text) found.old found.new) }
{
    match to.lexicon.read(alloc, line.text.as_slice()) {
        Ok(sentence) => add_sentence(alloc, to, found, line.line, &sentence),
        Err(fault) => add_fault(alloc, to, found, line.line, fault),
    }
}

/// Keeps the sentences of these lines, or appends why the lines are not kept. Returns the number of the last line.
fn add_lines(
    alloc: Global,
    to: &Examined<'_>,
    found: &mut Findings,
    lines: &[LooseLine],
) -> Result<u32, Memory>
    requires short { AllByRecursion (λ line. length line.text < 2 ^ 32) lines.now }
    requires size { length found.old.kept_lines.items ≡ length to.now.table.now.states }
    ensures size { length found.new.kept_lines.items ≡ length found.old.kept_lines.items }
    ensures lines { IfOk result (λ last. DecidesLines to.now.grammar.now to.now.table.now to.now.name.now lines.now last found.old found.new) }
{
    let mut last = 0;
    for line in lines {
        add_line(alloc, to, found, line)?;
        last = line.line;
    }
    Ok(last)
}

/// Whether a message still has the line that `--list-errors` writes in place of a message.
#[tactic(auto, unfolding(mh_rebase::specs::ErrorLines::unwritten_line))]
fn is_unwritten(message: &[u8]) -> bool
    ensures { result ≡ spec.is_unwritten message.now }
{
    for line in message.lines_with_terminator() {
        if line == UNWRITTEN {
            return true;
        }
    }
    false
}

/// Appends the line of the report which says that the message after this sentence line is not written yet.
fn write_note(text: &mut Vec<u8>, name: &[u8], line: u32) -> Result<(), Memory>
    ensures { OnOk result (text.new.items ≡ text.old.items ++ (spec.place name.now line ++ codes "no message yet\n")) }
{
    write_place(text, name, line)?;
    text.extend_from_slice(b"no message yet\n")?;
    Ok(())
}

/// Appends the line of the report on a message that nobody has written yet. The report gives the number of the last
/// sentence line of the entry.
fn write_unwritten(text: &mut Vec<u8>, name: &[u8], line: u32, message: &[u8]) -> Result<(), Memory>
    ensures { OnOk result (text.new.items ≡ text.old.items
        ++ spec.unwritten_text name.now line (spec.is_unwritten message.now)) }
{
    let unwritten = is_unwritten(message);
    if unwritten {
        write_note(text, name, line)
    } else {
        Ok(())
    }
}

/// Appends what is wrong with an entry: with its sentence lines, and that its message is not written yet.
fn add_entry(
    alloc: Global,
    to: &Examined<'_>,
    found: &mut Findings,
    entry: &LooseEntry,
) -> Result<(), Memory>
    requires short { AllByRecursion (λ line. length line.text < 2 ^ 32) entry.now.sentences }
    requires size { length found.old.kept_lines.items ≡ length to.now.table.now.states }
    ensures size { length found.new.kept_lines.items ≡ length found.old.kept_lines.items }
    ensures entry { OnOk result (DecidesEntries to.now.grammar.now to.now.table.now to.now.name.now (entry.now ∷ []) found.old found.new) }
{
    let last = add_lines(alloc, to, found, entry.sentences.as_slice())?;
    write_unwritten(&mut found.text, to.name, last, entry.message.as_slice())
}

/// Appends what is wrong with these entries.
pub(crate) fn add_entries(
    alloc: Global,
    to: &Examined<'_>,
    found: &mut Findings,
    entries: &[LooseEntry],
) -> Result<(), Memory>
    requires short { AllByRecursion (λ entry. AllByRecursion (λ line. length line.text < 2 ^ 32) entry.sentences) entries.now }
    requires size { length found.old.kept_lines.items ≡ length to.now.table.now.states }
    ensures size { length found.new.kept_lines.items ≡ length found.old.kept_lines.items }
    ensures entries { OnOk result (DecidesEntries to.now.grammar.now to.now.table.now to.now.name.now entries.now found.old found.new) }
{
    for entry in entries {
        add_entry(alloc, to, found, entry)?;
    }
    Ok(())
}
