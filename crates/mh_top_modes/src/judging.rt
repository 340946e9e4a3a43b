//! The mode of `--interpret`: each line of the input is a sentence, and the answer is its verdict.
ghost use Rattle.std.specs.Prelude.{◌≡◌, ◌<◌, ◌≤◌, ◌^◌, ◌++◌, List, ℕ, length, take, IfOk, OnOk};
ghost use Rattle.std.specs.List.{All};
ghost use Rattle.mh_tables_core.specs.Run.{VerdictOf, Rejected};
ghost use Rattle.mh_tables_core.specs.TreeRuns.{IsTreeEnding};
ghost use Rattle.mh_engine.specs.Outcomes.{tree_ending_for};
ghost use Rattle.mh_expected.specs.Expected.{ExpectedTokens, Overshoots};
ghost use Rattle.mh_run.specs.Verdicts.{ending_for};
ghost use Rattle.mh_check.specs.Compiling.{message_at};
ghost use Rattle.mh_top_plans.specs.code.Modes.{OpenedAndRan, Opens};
ghost use Rattle.mh_opts.specs.declared.jobs.Job.TheVariants.{Interpret as Interpret'};
ghost use Rattle.mh_top_plans.specs.Plan.{Judges, IsPlanOfJob, AreOptionalMessages};
ghost use Rattle.mh_top_plans.specs.Files.{IsNextFileOfJob, optional_file};
ghost use Rattle.mh_top_drive.specs.code.StageCalls.{FileStageGives, StageShelfCounts};
ghost use Rattle.mh_top_drive.specs.code.ModeCalls.{InputAndOutCounts, ModeShelfCounts};
ghost use Rattle.mh_top_drive.specs.code.Prepared.{IsConsistent};
ghost use Rattle.mh_top_plans.specs.Verdicts.{IsAnswerToLine, IsEndingText, IsOutcomeText, IsRefusalText, IsTreeText, IsVerdictText, IsSentenceAnswer, expected_line, message_or_none, refusal_text as refusal_line};
ghost use Rattle.mh_top_modes.specs.JudgingContext.{context_of};
ghost use Rattle.mh_tables_core.specs.Sentences.{FitsTable};

use crate::judge::Judging;
use mh_check::Compiled;
use mh_engine::{TreeOutcome, run_with_trees};
use mh_expected::expected;
use mh_grammar::{Grammar, Memory, Sentence};
use mh_msgfile::{Lexicon, SentenceFault, write_names};
use mh_outside::{Shelf, Sink, Source};
use mh_report::write_number;
use mh_run::{Verdict, verdict};
use mh_tables_core::Halting;
use mh_top_drive::{Asks, Mode, Prepared, Stop, drive_opened, joined};
use mh_top_plans::read_messages_file;
use mh_tree::print_tree;
use std::alloc::Global;

/// Appends the message of a state, or the line for a state without a message.
fn write_message(text: &mut Vec<u8>, messages: &Compiled, state: u32) -> Result<(), Memory>
    ensures { OnOk result (text.new.items ≡ text.old.items ++ message_or_none state (message_at messages.now state)) }
{
    match messages.message(state) {
        Some(message) => text.extend_from_slice(message)?,
        None => {
            text.extend_from_slice(b"no message for state ")?;
            write_number(text, state)?;
            text.push(b'\n')?;
        }
    }
    Ok(())
}

/// Appends the line of the tokens that are expected after the first `at` tokens of a sentence. The run on these tokens
/// must overshoot, that is, ask for one more token.
fn write_expected(
    alloc: Global,
    text: &mut Vec<u8>,
    by: &Judging<'_>,
    sentence: &Sentence,
    at: u32,
) -> Result<(), Memory>
    requires sentence { FitsTable by.now.halting.now sentence.now.start sentence.now.tokens }
    requires at { at ≤ length sentence.now.tokens }
    requires overshoots { Overshoots by.now.halting.now sentence.now.start (take at sentence.now.tokens) }
    ensures { OnOk result ((tokens : List ℕ) × ExpectedTokens by.now.halting.now sentence.now.start (take at sentence.now.tokens) tokens
        × (text.new.items ≡ text.old.items ++ expected_line by.now.grammar.now tokens)) }
{
    let before = &sentence.tokens.as_slice()[..at as usize];
    let tokens = expected(alloc, by.halting, sentence.start, before)?;
    text.extend_from_slice(b"expected:")?;
    write_names(text, by.grammar, tokens.as_slice())?;
    text.push(b'\n')?;
    Ok(())
}

/// The answer to a sentence that is refused in a state, with the message of that state if there is a messages file.
fn refusal_text(alloc: Global, messages: &Option<Compiled>, state: u32) -> Result<Vec<u8>, Memory>
    ensures { IfOk result (λ text. text.items ≡ refusal_line messages.now state) }
{
    let mut text = b"REJECT\n".to_vec(alloc)?;
    if let Some(messages) = messages {
        write_message(&mut text, messages, state)?;
    }
    Ok(text)
}

/// The answer to a sentence that is refused at this index, in this state. The list of expected tokens follows if the
/// order asks for the list.
fn refused_answer(
    alloc: Global,
    by: &Judging<'_>,
    sentence: &Sentence,
    at: u32,
    state: u32,
) -> Result<Vec<u8>, Memory>
    requires sentence { FitsTable by.now.halting.now sentence.now.start sentence.now.tokens }
    requires refused { VerdictOf by.now.halting.now sentence.now.start sentence.now.tokens (Rejected at state) }
    ensures { IfOk result (λ text. IsRefusalText (context_of by.now) sentence.now at state text.items) }
{
    let _rows = by.halting.table();
    let mut text = refusal_text(alloc, &by.messages, state)?;
    if !by.expected {
        return Ok(text);
    }
    write_expected(alloc, &mut text, by, sentence, at)?;
    Ok(text)
}

/// The answer to a sentence with this verdict.
fn verdict_text(
    alloc: Global,
    by: &Judging<'_>,
    sentence: &Sentence,
    verdict: Verdict,
) -> Result<Vec<u8>, Memory>
    requires sentence { FitsTable by.now.halting.now sentence.now.start sentence.now.tokens }
    requires verdict { VerdictOf by.now.halting.now sentence.now.start sentence.now.tokens (ending_for verdict) }
    ensures { IfOk result (λ text. IsEndingText (context_of by.now) sentence.now (ending_for verdict) text.items) }
{
    match verdict {
        Verdict::Accept { .. } => Ok(b"ACCEPT\n".to_vec(alloc)?),
        Verdict::Overshoot { .. } => Ok(b"OVERSHOOT\n".to_vec(alloc)?),
        Verdict::Reject { at, state } => refused_answer(alloc, by, sentence, at, state),
    }
}

/// The answer to a sentence, from its verdict.
fn verdict_answer(alloc: Global, by: &Judging<'_>, sentence: &Sentence) -> Result<Vec<u8>, Memory>
    requires { FitsTable by.now.halting.now sentence.now.start sentence.now.tokens }
    ensures { IfOk result (λ text. IsVerdictText (context_of by.now) sentence.now text.items) }
{
    let tokens = sentence.tokens.as_slice();
    let verdict = verdict(alloc, by.halting, sentence.start, tokens)?;
    verdict_text(alloc, by, sentence, verdict)
}

/// The answer to a sentence whose run with trees has this outcome.
fn outcome_text(
    alloc: Global,
    by: &Judging<'_>,
    sentence: &Sentence,
    outcome: &TreeOutcome,
) -> Result<Vec<u8>, Memory>
    requires sentence { FitsTable by.now.halting.now sentence.now.start sentence.now.tokens }
    requires outcome { IsTreeEnding by.now.halting.now sentence.now.start sentence.now.tokens (tree_ending_for outcome.now) }
    ensures { IfOk result (λ text. IsTreeText (context_of by.now) sentence.now (tree_ending_for outcome.now) text.items) }
{
    match outcome {
        TreeOutcome::Accept { tree, .. } => {
            let tree = print_tree(alloc, by.grammar, tree)?;
            let text = joined(alloc, b"ACCEPT\n", &tree, b"\n")?;
            Ok(text.into_vec())
        }
        TreeOutcome::Overshoot { .. } => Ok(b"OVERSHOOT\n".to_vec(alloc)?),
        TreeOutcome::Reject { at, state } => refused_answer(alloc, by, sentence, *at, *state),
        TreeOutcome::TooDeep => Ok(b"TOODEEP\n".to_vec(alloc)?),
    }
}

/// The answer to a sentence, from its run with trees.
fn tree_answer(alloc: Global, by: &Judging<'_>, sentence: &Sentence) -> Result<Vec<u8>, Memory>
    requires { FitsTable by.now.halting.now sentence.now.start sentence.now.tokens }
    ensures { IfOk result (λ text. IsOutcomeText (context_of by.now) sentence.now text.items) }
{
    let tokens = sentence.tokens.as_slice();
    let outcome = run_with_trees(alloc, by.halting, sentence.start, tokens)?;
    outcome_text(alloc, by, sentence, &outcome)
}

/// The answer to a sentence, with trees or without.
fn sentence_text(alloc: Global, by: &Judging<'_>, sentence: &Sentence) -> Result<Vec<u8>, Memory>
    requires { FitsTable by.now.halting.now sentence.now.start sentence.now.tokens }
    ensures { IfOk result (λ text. IsSentenceAnswer (context_of by.now) sentence.now text.items) }
{
    if by.trees {
        tree_answer(alloc, by, sentence)
    } else {
        verdict_answer(alloc, by, sentence)
    }
}

/// The text that answers a line.
fn line_text(alloc: Global, by: &Judging<'_>, line: &[u8]) -> Result<Vec<u8>, Memory>
    requires short { length line.now < 2 ^ 32 }
    ensures { IfOk result (λ text. IsAnswerToLine (context_of by.now) line.now text.items) }
{
    match by.lexicon.read(alloc, line) {
        Ok(sentence) => sentence_text(alloc, by, &sentence),
        Err(SentenceFault::Unreadable) => Ok(b"ERROR unreadable\n".to_vec(alloc)?),
        Err(SentenceFault::UnknownStart { name }) => {
            let text = joined(alloc, b"ERROR unknown start ", name.as_slice(), b"\n")?;
            Ok(text.into_vec())
        }
        Err(SentenceFault::MissingStart) => Ok(b"ERROR missing start\n".to_vec(alloc)?),
        Err(SentenceFault::UnknownToken { name }) => {
            let text = joined(alloc, b"ERROR unknown token ", name.as_slice(), b"\n")?;
            Ok(text.into_vec())
        }
        Err(SentenceFault::Memory) => Err(Memory),
    }
}

impl<'a> Mode for Judging<'a> {
    ghost use Rattle.std.specs.Prelude.{◌≡◌};
    ghost use Rattle.mh_top_plans.specs.Plan.{Plan, plan_behavior, Judges};

    ghost State = { Plan };

    ghost behavior = { plan_behavior };

    ghost use Rattle.mh_top_modes.specs.JudgingContext.{context_of};

    ghost Is = { λ s plan. plan ≡ Judges (context_of s) };

    fn asks(&self) -> Asks {
        Asks::EachLine
    }

    fn answer(&mut self, alloc: Global, line: &[u8]) -> Result<Vec<u8>, Memory> {
        line_text(alloc, self, line)
    }

    fn end<O: Sink>(self, _alloc: Global, _out: &mut O) -> Result<(), Stop> {
        Ok(())
    }
}

/// Reads the messages file of the order, if it has one.
fn messages_for<F: Shelf, const W: usize>(
    alloc: Global,
    prepared: &Prepared<W>,
    shelf: &mut F,
) -> Result<Option<Compiled>, Stop>
    requires few { W ≤ 8 }
    requires consistent { IsConsistent prepared.now }
    requires asked { All (F.MayAsk shelf.old) (optional_file prepared.now.order.messages) }
    ensures messages { FileStageGives (AreOptionalMessages prepared.now.order.messages (F.files shelf.old) prepared.now)
        (IsNextFileOfJob Interpret' (F.files shelf.old) prepared.now) result }
    ensures kept { F.files shelf.new ≡ F.files shelf.old }
    ensures counts { StageShelfCounts (F.faults shelf.old) (F.faults shelf.new) result }
{
    match &prepared.order.messages {
        None => Ok(None),
        Some(name) => match read_messages_file(alloc, prepared, shelf, name.as_slice()) {
            Ok(messages) => Ok(Some(messages)),
            Err(stop) => Err(stop),
        },
    }
}

/// Opens the mode: reads the messages file of the order, if it has one.
fn judge_by<'a, F: Shelf, const W: usize>(
    alloc: Global,
    prepared: &'a Prepared<W>,
    shelf: &mut F,
) -> Result<Judging<'a>, Stop>
    requires few { W ≤ 8 }
    requires consistent { IsConsistent prepared.now }
    requires asked { All (F.MayAsk shelf.old) (optional_file prepared.now.order.messages) }
    ensures opens { Opens (λ by plan. plan ≡ Judges (context_of by))
        (IsPlanOfJob Interpret' (F.files shelf.old) prepared.now)
        (IsNextFileOfJob Interpret' (F.files shelf.old) prepared.now) result }
    ensures counts { StageShelfCounts (F.faults shelf.old) (F.faults shelf.new) result }
    ensures kept { F.files shelf.new ≡ F.files shelf.old }
{
    let grammar = &prepared.grammar;
    let halting = &prepared.tabled.halting;
    halting.table().facts();
    let messages = match messages_for(alloc, prepared, shelf) {
        Ok(messages) => messages,
        Err(stop) => return Err(stop),
    };
    match Lexicon::new(alloc, grammar) {
        Ok(lexicon) => Ok(Judging {
            trees: prepared.order.show_cst,
            expected: prepared.order.show_expected,
            grammar,
            lexicon,
            halting,
            messages,
        }),
        Err(_) => Err(Stop::OutOfMemory),
    }
}

/// Runs the mode that answers each line of the input with its verdict.
pub fn interpret<F: Shelf, I: Source, O: Sink, const W: usize>(
    alloc: Global,
    prepared: &Prepared<W>,
    shelf: &mut F,
    input: &mut I,
    out: &mut O,
) -> Result<(), Stop>
    requires few { W ≤ 8 }
    requires consistent { IsConsistent prepared.now }
    requires asked { All (F.MayAsk shelf.old) (optional_file prepared.now.order.messages) }
    requires may_read { I.MayRead input.old }
    requires may_write { O.MayWrite out.old }
    ensures ran { OpenedAndRan (IsPlanOfJob Interpret' (F.files shelf.old) prepared.now)
        (IsNextFileOfJob Interpret' (F.files shelf.old) prepared.now)
        (I.left input.old) (I.left input.new) (O.written out.old) (O.written out.new) result }
    ensures counts { InputAndOutCounts (I.faults input.old) (I.faults input.new)
        (O.faults out.old) (O.faults out.new) result }
    ensures read { ModeShelfCounts (F.faults shelf.old) (F.faults shelf.new) result }
    ensures kept { F.files shelf.new ≡ F.files shelf.old }
{
    let opened = judge_by(alloc, prepared, shelf);
    drive_opened(alloc, opened, input, out)
}
