//! The comment lines of the sentences of a messages file.
ghost use Rattle.std.specs.Prelude.{◌≡◌, ◌≤◌, ◌++◌, [], ℕ, List, flat_map, length, IfOk, MatchResult};
ghost use Rattle.std.specs.List.{AllByRecursion};
ghost use Rattle.mh_msgfile.specs.Messages.{IsSentenceOf};
ghost use Rattle.mh_msgfile.specs.declared.messages.MsgSentence.{MsgSentence as MsgSentence'};
ghost use Rattle.mh_check.specs.Checks.{BreaksSoundness, FailsIn};
ghost use Rattle.mh_check.specs.Compiling.{ReportsCheckFault};
ghost use Rattle.mh_report.specs.FitsStates.{FitsStates};
ghost use Rattle.mh_update.specs.Updates.{AreComments, IsComment, AreCommentsOrFault as CommentsOf};

use crate::comment::Comment;
use mh_check::{CheckFault, failing_state};
use mh_grammar::{Memory, Sequence};
use mh_msgfile::{Entry, MsgSentence};
use mh_report::Commenter;
use std::alloc::Global;

/// The comment of a sentence that fails.
fn comment_of<const W: usize>(
    alloc: Global,
    commenter: &Commenter<'_, W>,
    sentence: &MsgSentence,
) -> Result<Comment, Memory>
    requires fits { FitsStates W commenter.now.grammar.now commenter.now.automaton.now commenter.now.table.now }
    requires known { IsSentenceOf (length commenter.now.table.now.grammar.starts) commenter.now.table.now.grammar.tokens sentence.now }
    requires fails { (s : ℕ) × FailsIn commenter.now.table.now sentence.now s }
    ensures { IfOk result (IsComment commenter.now.expected commenter.now.grammar.now commenter.now.automaton.now commenter.now.table.now sentence.now) }
{
    let tokens = sentence.tokens.as_slice();
    let text = commenter.comments(alloc, sentence.start, tokens)?;
    Ok(Comment {
        line: sentence.line,
        text: Sequence::from_vec(text),
    })
}

/// The comment of a sentence, or the reason why it has none.
fn checked_comment<const W: usize>(
    alloc: Global,
    commenter: &Commenter<'_, W>,
    sentence: &MsgSentence,
) -> Result<Comment, CheckFault>
    requires fits { FitsStates W commenter.now.grammar.now commenter.now.automaton.now commenter.now.table.now }
    requires known { IsSentenceOf (length commenter.now.table.now.grammar.starts) commenter.now.table.now.grammar.tokens sentence.now }
    ensures { MatchResult result (IsComment commenter.now.expected commenter.now.grammar.now commenter.now.automaton.now commenter.now.table.now sentence.now) (λ fault. ReportsCheckFault fault (BreaksSoundness commenter.now.table.now [] sentence.now)) }
{
    match failing_state(alloc, commenter.table, sentence) {
        Ok(_state) => match comment_of(alloc, commenter, sentence) {
            Ok(comment) => Ok(comment),
            Err(Memory) => Err(CheckFault::Memory),
        },
        Err(fault) => Err(fault),
    }
}

/// Appends the comments of some sentences.
fn put_comments<const W: usize>(
    alloc: Global,
    commenter: &Commenter<'_, W>,
    sentences: &[MsgSentence],
    comments: &mut Vec<Comment>,
) -> Result<(), CheckFault>
    requires fits { FitsStates W commenter.now.grammar.now commenter.now.automaton.now commenter.now.table.now }
    requires known { AllByRecursion (IsSentenceOf (length commenter.now.table.now.grammar.starts) commenter.now.table.now.grammar.tokens) sentences.now }
    ensures { (done : List MsgSentence') → AreComments commenter.now.expected commenter.now.grammar.now commenter.now.automaton.now commenter.now.table.now done comments.old.items → CommentsOf commenter.now.expected commenter.now.grammar.now commenter.now.automaton.now commenter.now.table.now (done ++ sentences.now) comments.new.items result }
{
    for sentence in sentences {
        match checked_comment(alloc, commenter, sentence) {
            Ok(comment) => match comments.push(comment) {
                Ok(()) => {}
                Err(_) => return Err(CheckFault::Memory),
            },
            Err(fault) => return Err(fault),
        }
    }
    Ok(())
}

/// Appends the comments of all sentences of these entries to an empty vector.
pub(crate) fn all_comments<const W: usize>(
    alloc: Global,
    commenter: &Commenter<'_, W>,
    entries: &[Entry],
    comments: &mut Vec<Comment>,
) -> Result<(), CheckFault>
    requires fits { FitsStates W commenter.now.grammar.now commenter.now.automaton.now commenter.now.table.now }
    requires known { AllByRecursion (λ entry. AllByRecursion (IsSentenceOf (length commenter.now.table.now.grammar.starts) commenter.now.table.now.grammar.tokens) entry.sentences) entries.now }
    requires none { comments.old.items ≡ [] }
    ensures { CommentsOf commenter.now.expected commenter.now.grammar.now commenter.now.automaton.now commenter.now.table.now (flat_map (λ entry. entry.sentences) entries.now) comments.new.items result }
{
    for entry in entries {
        let sentences = entry.sentences.as_slice();
        match put_comments(alloc, commenter, sentences, comments) {
            Ok(()) => {}
            Err(fault) => return Err(fault),
        }
    }
    Ok(())
}
