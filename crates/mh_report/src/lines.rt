//! The comment lines of a sentence that fails, and its entry in the list of errors.
ghost use Rattle.std.specs.Prelude.{◌≡◌, ◌<◌, ◌≤◌, ◌^◌, ◌++◌, ℕ, length, take, IfOk, OnOk};
ghost use Rattle.std.specs.List.{All};
ghost use Rattle.mh_grammar.specs.Plain.{plain_of, rhs_of};
ghost use Rattle.mh_items_kernels.specs.Kernels.{IsKernelItem};
ghost use Rattle.mh_tables_core.specs.Failing.{Fails};
ghost use Rattle.mh_report.specs.FitsStates.{FitsStates};
ghost use Rattle.mh_report.specs.Comments.{HasFarthestDot, AppendsComments, AppendsExpected, IsCommentBlock, IsCommentText, IsEntryText, expected_comment, state_comment, suffix_title, suffix_comment, reduced_comment, reduced_comments, message_placeholder};

use mh_expected::expected;
use mh_grammar::{Grammar, Memory, Token};
use mh_grammar_texts::{write_before, write_between, write_production};
use mh_items_kernels::{Automaton, KernelItem};
use mh_msgfile::{write_names, write_sentence};
use mh_report_notation::write_item_lines;
use mh_run::{Verdict, trace};
use mh_tables_core::Halting;
use std::alloc::Global;

#[tactic(auto, unfolding(crate::specs::Comments::state_comment))]
fn write_state(text: &mut Vec<u8>, state: u32) -> Result<(), Memory>
    ensures { OnOk result (text.new.items ≡ text.old.items ++ state_comment state) }
{
    write_between(
        text,
        b"##\n## Ends in an error in state: ",
        state,
        b".\n##\n",
    )
}

#[tactic(auto, unfolding(crate::specs::Comments::suffix_title))]
fn write_suffix_title(text: &mut Vec<u8>) -> Result<(), Memory>
    ensures { OnOk result (text.new.items ≡ text.old.items ++ suffix_title) }
{
    text.extend_from_slice(b"##\n## The known suffix of the stack is as follows:\n##")?;
    Ok(())
}

/// Appends the known suffix of the stack: the symbols before the dot in the right side of a production.
fn write_suffix(
    text: &mut Vec<u8>,
    grammar: &Grammar,
    production: u32,
    dot: u32,
) -> Result<(), Memory>
    requires { dot ≤ length (rhs_of (plain_of grammar.now) production) }
    ensures { OnOk result (text.new.items ≡ text.old.items
        ++ suffix_comment grammar.now (take dot (rhs_of (plain_of grammar.now) production))) }
{
    write_suffix_title(text)?;
    write_before(text, grammar, production, dot)?;
    text.extend_from_slice(b"\n##\n")?;
    Ok(())
}

#[tactic(auto, unfolding(crate::specs::Comments::reduced_title))]
fn write_reduced(text: &mut Vec<u8>, grammar: &Grammar, production: u32) -> Result<(), Memory>
    ensures { OnOk result (text.new.items ≡ text.old.items
        ++ reduced_comment grammar.now production) }
{
    text.extend_from_slice(b"## Reduced before the error: ")?;
    write_production(text, grammar, production)?;
    text.push(b'\n')?;
    Ok(())
}

/// Appends one line for each of the reduced productions, in order.
fn write_all_reduced(
    text: &mut Vec<u8>,
    grammar: &Grammar,
    productions: &[u32],
) -> Result<(), Memory>
    ensures { OnOk result (text.new.items ≡ text.old.items
        ++ reduced_comments grammar.now productions.now) }
{
    for production in productions {
        write_reduced(text, grammar, *production)?;
    }
    Ok(())
}

/// Appends the line that the user replaces with a message, between two empty lines.
#[tactic(auto, unfolding(crate::specs::Comments::message_placeholder))]
fn write_message_place(text: &mut Vec<u8>) -> Result<(), Memory>
    ensures { OnOk result (text.new.items ≡ text.old.items ++ message_placeholder) }
{
    text.extend_from_slice(b"\n<YOUR SYNTAX ERROR MESSAGE HERE>\n\n")?;
    Ok(())
}

/// The first item whose dot is the farthest to the right.
fn farthest<const W: usize>(items: &[KernelItem<W>]) -> &KernelItem<W>
    requires few { W ≤ 8 }
    requires some { 0 < length items.now }
    ensures { HasFarthestDot items.now result.now }
{
    let mut best = &items[0];
    for item in items {
        if best.dot < item.dot {
            best = item;
        }
    }
    best
}

/// Appends the comment lines of a state with these items; `reduced` has the productions reduced since the last shift.
/// Fails only if memory runs out.
pub fn write_comments<const W: usize>(
    text: &mut Vec<u8>,
    grammar: &Grammar,
    state: u32,
    items: &[KernelItem<W>],
    reduced: &[u32],
) -> Result<(), Memory>
    requires few { W ≤ 8 }
    requires some { 0 < length items.now }
    requires items { All (IsKernelItem (plain_of grammar.now)) items.now }
    ensures { OnOk result (AppendsComments grammar.now items.now state reduced.now text.old.items text.new.items) }
{
    let item = farthest(items);
    write_state(text, state)?;
    write_item_lines(text, grammar, b"## ", items)?;
    write_suffix(text, grammar, item.production, item.dot)?;
    write_all_reduced(text, grammar, reduced)?;
    Ok(())
}

/// Returns the comment lines of a sentence that fails: the state that refuses its last token, with its kernel; the
/// symbols that are known to be on top of the stack; and the productions reduced since the last shift. Fails only if
/// memory runs out.
pub fn comment_lines<const W: usize>(
    alloc: Global,
    grammar: &Grammar,
    automaton: &Automaton<W>,
    table: &Halting,
    start: u16,
    sentence: &[Token],
) -> Result<Vec<u8>, Memory>
    requires fits { FitsStates W grammar.now automaton.now table.now }
    requires fails { (state : ℕ) × Fails table.now start sentence.now state }
    requires size { length sentence.now < 2 ^ 32 }
    ensures { IfOk result (λ text. IsCommentText grammar.now automaton.now table.now start sentence.now text.items) }
{
    let _facts = table.table();
    let (verdict, reduced) = trace(alloc, table, start, sentence)?;
    let Verdict::Reject { state, .. } = verdict else {
        unreachable!()
    };
    let items = automaton.kernels[state as usize].items.as_slice();
    let mut text = Vec::new(alloc);
    write_comments(&mut text, grammar, state, items, reduced.as_slice())?;
    Ok(text)
}

/// Appends the line of these tokens.
#[tactic(auto, unfolding(crate::specs::Comments::expected_title))]
fn write_expected_line(
    text: &mut Vec<u8>,
    grammar: &Grammar,
    tokens: &[Token],
) -> Result<(), Memory>
    ensures { OnOk result (text.new.items ≡ text.old.items ++ expected_comment grammar.now tokens.now) }
{
    text.extend_from_slice(b"## Expected:")?;
    write_names(text, grammar, tokens)?;
    text.push(b'\n')?;
    Ok(())
}

/// Appends the line of the tokens that are expected in place of the last token of a sentence that fails. Fails only if
/// memory runs out.
pub fn write_expected(
    alloc: Global,
    text: &mut Vec<u8>,
    grammar: &Grammar,
    table: &Halting,
    start: u16,
    sentence: &[Token],
) -> Result<(), Memory>
    requires fails { (state : ℕ) × Fails table.now start sentence.now state }
    requires size { length sentence.now < 2 ^ 32 }
    ensures { OnOk result (AppendsExpected grammar.now table.now start sentence.now text.old.items text.new.items) }
{
    let _facts = table.table();
    let before = &sentence[..sentence.len() - 1];
    let tokens = expected(alloc, table, start, before)?;
    write_expected_line(text, grammar, tokens.as_slice())
}

/// What comment lines are made from: a grammar, its automaton and its table.
#[derive(Drop)]
pub struct Commenter<'a, const W: usize> {
    pub grammar: &'a Grammar,
    pub automaton: &'a Automaton<W>,
    pub table: &'a Halting,
    /// Whether the comment lines end with the tokens that are expected in place of the last token.
    pub expected: bool,
}

impl<const W: usize> Commenter<'_, W> {
    /// Returns the comment lines of a sentence that fails, with the expected tokens if they are asked for. Fails only
    /// if memory runs out.
    pub fn comments(&self, alloc: Global, start: u16, sentence: &[Token]) -> Result<Vec<u8>, Memory>
        requires fits { FitsStates W self.now.grammar.now self.now.automaton.now self.now.table.now }
        requires fails { (state : ℕ) × Fails self.now.table.now start sentence.now state }
        requires size { length sentence.now < 2 ^ 32 }
        ensures { IfOk result (λ text. IsCommentBlock self.now.expected self.now.grammar.now self.now.automaton.now self.now.table.now start sentence.now text.items) }
    {
        let mut text = comment_lines(
            alloc,
            self.grammar,
            self.automaton,
            self.table,
            start,
            sentence,
        )?;
        if !self.expected {
            return Ok(text);
        }
        write_expected(alloc, &mut text, self.grammar, self.table, start, sentence)?;
        Ok(text)
    }

    /// Returns the entry of a sentence that fails, in the form of a messages file: the sentence, its comment lines, an
    /// empty line, a placeholder for the message, and an empty line. Fails only if memory runs out.
    pub fn entry(&self, alloc: Global, start: u16, sentence: &[Token]) -> Result<Vec<u8>, Memory>
        requires fits { FitsStates W self.now.grammar.now self.now.automaton.now self.now.table.now }
        requires fails { (state : ℕ) × Fails self.now.table.now start sentence.now state }
        requires size { length sentence.now < 2 ^ 32 }
        ensures { IfOk result (λ text. IsEntryText self.now.expected self.now.grammar.now self.now.automaton.now self.now.table.now start sentence.now text.items) }
    {
        let comments = self.comments(alloc, start, sentence)?;
        let mut text = Vec::new(alloc);
        write_sentence(&mut text, self.grammar, start, sentence)?;
        text.push(b'\n')?;
        text.extend_from_slice(comments.as_slice())?;
        write_message_place(&mut text)?;
        Ok(text)
    }
}
