//! The text of a messages file that is brought up to date.
ghost use Rattle.std.specs.Prelude.{◌≡◌, ◌≤◌, ◌-◌, ◌++◌, length, take, drop, IfOk, OnOk, MatchResult};
ghost use Rattle.mh_msgfile.specs.Messages.{AreSentencesOf};
ghost use Rattle.mh_check.specs.Checks.{sentences_of};
ghost use Rattle.mh_check.specs.Compiling.{ReportsCheckFault};
ghost use Rattle.mh_report.specs.FitsStates.{FitsStates};
ghost use Rattle.mh_update.specs.Updates.{FirstUnfit, IsUpdated, kept_text, kept_texts_of, updated};

use crate::comment::Comment;
use crate::comments::all_comments;
use mh_check::CheckFault;
use mh_grammar::{Grammar, Memory, Name};
use mh_items_kernels::Automaton;
use mh_msgfile::MsgFile;
use mh_report::Commenter;
use mh_tables_core::Halting;
use std::alloc::Global;

/// Appends a line, unless it is generated.
fn write_own(text: &mut Vec<u8>, line: &[u8]) -> Result<(), Memory>
    ensures { OnOk result (text.new.items ≡ text.old.items ++ kept_text line.now) }
{
    if !line.starts_with(b"##") {
        text.extend_from_slice(line)?;
        text.push(b'\n')?;
    }
    Ok(())
}

/// Appends the lines that are not generated.
fn write_all_own(text: &mut Vec<u8>, lines: &[Name]) -> Result<(), Memory>
    ensures { OnOk result (text.new.items ≡ text.old.items ++ kept_texts_of lines.now) }
{
    for line in lines {
        write_own(text, line.as_slice())?;
    }
    Ok(())
}

/// The lines after the first `count`.
fn after(lines: &[Name], count: usize) -> &[Name]
    ensures { result.now ≡ drop count lines.now }
{
    if count < lines.len() {
        &lines[count..]
    } else {
        &lines[..0]
    }
}

/// The first `count` lines, or all lines if there are fewer.
fn first(lines: &[Name], count: usize) -> &[Name]
    ensures { result.now ≡ take count lines.now }
{
    if count < lines.len() {
        &lines[..count]
    } else {
        lines
    }
}

/// Appends the lines after the first `written` up to the line of a sentence, and then the comment lines of the
/// sentence. Lines are numbered from 1.
fn write_comment(
    text: &mut Vec<u8>,
    lines: &[Name],
    written: usize,
    comment: &Comment,
) -> Result<(), Memory>
    ensures { OnOk result (text.new.items ≡ text.old.items ++ kept_texts_of (take (comment.now.line - written) (drop written lines.now)) ++ comment.now.text) }
{
    let count = (comment.line as usize).saturating_sub(written);
    write_all_own(text, first(after(lines, written), count))?;
    text.extend_from_slice(comment.text.as_slice())?;
    Ok(())
}

/// The lines that are not generated, with the comment lines of each sentence after its line.
fn with_comments(alloc: Global, lines: &[Name], comments: &[Comment]) -> Result<Vec<u8>, Memory>
    ensures { IfOk result (λ text. text.items ≡ updated lines.now comments.now) }
{
    let mut text = Vec::new(alloc);
    let mut written = 0usize;
    for comment in comments {
        write_comment(&mut text, lines, written, comment)?;
        written = comment.line as usize;
    }
    write_all_own(&mut text, after(lines, written))?;
    Ok(text)
}

/// Brings a messages file up to date: returns its lines that do not begin with `##`, in order, with the comment lines
/// of each sentence after its line, made by this grammar, automaton and table. Fails at the first sentence that is not
/// refused, or is refused before its last token; two sentences may fail in the same state. If `expected` is true, the
/// comment lines end with the expected tokens. Fails with `Memory` only if memory runs out.
pub fn update<const W: usize>(
    alloc: Global,
    grammar: &Grammar,
    automaton: &Automaton<W>,
    table: &Halting,
    file: &MsgFile,
    expected: bool,
) -> Result<Vec<u8>, CheckFault>
    requires fits { FitsStates W grammar.now automaton.now table.now }
    requires known { AreSentencesOf (length table.now.grammar.starts) table.now.grammar.tokens file.now }
    ensures { MatchResult result (λ text. IsUpdated expected grammar.now automaton.now table.now file.now text.items) (λ fault. ReportsCheckFault fault (FirstUnfit table.now (sentences_of file.now))) }
{
    let commenter = Commenter {
        grammar,
        automaton,
        table,
        expected,
    };
    let mut comments = Vec::new(alloc);
    match all_comments(alloc, &commenter, file.entries.as_slice(), &mut comments) {
        Ok(()) => match with_comments(alloc, file.lines.as_slice(), comments.as_slice()) {
            Ok(text) => Ok(text),
            Err(Memory) => Err(CheckFault::Memory),
        },
        Err(fault) => Err(fault),
    }
}
