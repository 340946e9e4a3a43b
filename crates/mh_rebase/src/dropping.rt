//! The report of what was dropped. Each function appends to a text, and fails only if memory runs out.
ghost use Rattle.std.specs.Prelude.{◌≡◌, ◌++◌, OnOk, codes};
ghost use Rattle.mh_rebase.specs.RebasedText.{dropped_title, reason_text, commented_message};

use crate::reason::DropReason;
use bstr::ByteSlice;
use mh_check::{ending_text, write_early, write_shared};
use mh_grammar::Memory;
use mh_grammar_texts::write_between;
use std::alloc::Global;

/// Appends words, a name and an LF.
fn write_named(text: &mut Vec<u8>, words: &[u8], name: &[u8]) -> Result<(), Memory>
    ensures { OnOk result (text.new.items ≡ text.old.items ++ (words.now ++ name.now ++ codes "\n")) }
{
    text.extend_from_slice(words)?;
    text.extend_from_slice(name)?;
    text.push(b'\n')?;
    Ok(())
}

/// Appends a reason, followed by an LF.
pub fn write_reason(alloc: Global, text: &mut Vec<u8>, reason: &DropReason) -> Result<(), Memory>
    ensures { OnOk result (text.new.items ≡ text.old.items ++ reason_text reason.now) }
{
    match reason {
        DropReason::Unreadable => text.extend_from_slice(b"unreadable\n")?,
        DropReason::UnknownStart { name } => {
            write_named(text, b"unknown start ", name.as_slice())?;
        }
        DropReason::MissingStart => text.extend_from_slice(b"missing start\n")?,
        DropReason::UnknownToken { name } => {
            write_named(text, b"unknown token ", name.as_slice())?;
        }
        DropReason::NotRefused { verdict } => text.extend_from_slice(ending_text(*verdict))?,
        DropReason::RefusedEarly { at } => write_early(alloc, text, *at)?,
        DropReason::SharedState { state, line } => write_shared(alloc, text, *state, *line)?,
    }
    Ok(())
}

/// Appends the beginning of the line that reports a dropped line.
#[tactic(auto, unfolding(crate::specs::RebasedText::dropped_title))]
fn write_title(text: &mut Vec<u8>, line: u32) -> Result<(), Memory>
    ensures { OnOk result (text.new.items ≡ text.old.items ++ dropped_title line) }
{
    write_between(text, b"# dropped ", line, b": ")
}

/// Appends the line that reports a dropped line with its reason.
pub(crate) fn write_dropped(
    alloc: Global,
    text: &mut Vec<u8>,
    line: u32,
    reason: &DropReason,
) -> Result<(), Memory>
    ensures { OnOk result (text.new.items ≡ text.old.items ++ dropped_title line ++ reason_text reason.now) }
{
    write_title(text, line)?;
    write_reason(alloc, text, reason)
}

/// Appends the lines of a message, each after `# `.
pub(crate) fn write_commented(text: &mut Vec<u8>, message: &[u8]) -> Result<(), Memory>
    ensures { OnOk result (text.new.items ≡ text.old.items ++ commented_message message.now) }
{
    for line in message.lines_with_terminator() {
        text.extend_from_slice(b"# ")?;
        text.extend_from_slice(line)?;
    }
    Ok(())
}
