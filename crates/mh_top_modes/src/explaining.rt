//! The mode of `--interpret-error`: the entry of the sentence in the first line of the input, or a refusal that says
//! why the line has no entry.
ghost use Rattle.std.specs.Prelude.{◌≡◌, ◌<◌, ◌≤◌, ◌^◌, ◌++◌, ℕ, [], length, codes, IfOk};
ghost use Rattle.mh_tables_core.specs.Failing.{Fails};
ghost use Rattle.mh_report.specs.Comments.{IsEntryText};
ghost use Rattle.mh_run.specs.Verdicts.{ending_for};
ghost use Rattle.mh_check.specs.Texts.{ending_text as ending_words, early_text};
ghost use Rattle.mh_top_plans.specs.Explained.{IsExplained, IsExplainedSentence, input_refusal};
ghost use Rattle.mh_top_drive.specs.code.ModeCalls.{ModeRan, InputAndOutCounts};
ghost use Rattle.mh_top_plans.specs.Plan.{Explains, plan_behavior};
ghost use Rattle.mh_top_drive.specs.code.Prepared.{IsConsistent};
ghost use Rattle.mh_tables_core.specs.Sentences.{FitsTable};
ghost use Rattle.mh_top_modes.specs.code.Running.{MayRun};

use mh_check::{ending_text, write_early};
use mh_grammar::{Memory, Sentence, Sequence};
use mh_msgfile::{SentenceFault, read_sentence};
use mh_outside::{Sink, Source};
use mh_report::Commenter;
use mh_run::{Verdict, verdict};
use mh_top_drive::{Asks, Mode, Prepared, Stop, drive};
use mh_top_plans::{FinalText, write_final};
use std::alloc::Global;

/// The refusal of the input, with the reason that the three parts make.
fn refuse_input(
    alloc: Global,
    before: &[u8],
    middle: &[u8],
    after: &[u8],
) -> Result<FinalText, Memory>
    ensures { IfOk result (λ made. made ≡ input_refusal (before.now ++ middle.now ++ after.now)) }
{
    let mut line = b"menhir: input: ".to_vec(alloc)?;
    line.extend_from_slice(before)?;
    line.extend_from_slice(middle)?;
    line.extend_from_slice(after)?;
    Ok(FinalText::Refusal {
        line: Sequence::from_vec(line),
    })
}

/// The refusal of a sentence that is refused before its last token, at this index from 0.
fn refuse_early(alloc: Global, at: u32) -> Result<FinalText, Memory>
    ensures { IfOk result (λ made. made ≡ input_refusal (early_text at)) }
{
    let mut line = b"menhir: input: ".to_vec(alloc)?;
    write_early(alloc, &mut line, at)?;
    Ok(FinalText::Refusal {
        line: Sequence::from_vec(line),
    })
}

/// The refusal of a sentence that is accepted or overshoots, by its verdict.
fn refuse_ending(alloc: Global, verdict: Verdict) -> Result<FinalText, Memory>
    ensures { IfOk result (λ made. made ≡ input_refusal (ending_words (ending_for verdict))) }
{
    let mut line = b"menhir: input: ".to_vec(alloc)?;
    line.extend_from_slice(ending_text(verdict))?;
    Ok(FinalText::Refusal {
        line: Sequence::from_vec(line),
    })
}

/// The entry of a sentence that is refused at its last token.
fn entry_of<const W: usize>(
    alloc: Global,
    prepared: &Prepared<W>,
    sentence: &Sentence,
) -> Result<Sequence<u8>, Memory>
    requires few { W ≤ 8 }
    requires consistent { IsConsistent prepared.now }
    requires fails { (state : ℕ) × Fails prepared.now.tabled.halting sentence.now.start sentence.now.tokens state }
    requires size { length sentence.now.tokens < 2 ^ 32 }
    ensures { IfOk result (λ text. IsEntryText prepared.now.order.comment_expected prepared.now.grammar prepared.now.tabled.automaton
        prepared.now.tabled.halting sentence.now.start sentence.now.tokens text) }
{
    let commenter = Commenter {
        grammar: &prepared.grammar,
        automaton: &prepared.tabled.automaton,
        table: &prepared.tabled.halting,
        expected: prepared.order.comment_expected,
    };
    let text = commenter.entry(alloc, sentence.start, sentence.tokens.as_slice())?;
    Ok(Sequence::from_vec(text))
}

/// The final text for a sentence.
fn explain_sentence<const W: usize>(
    alloc: Global,
    prepared: &Prepared<W>,
    sentence: &Sentence,
) -> Result<FinalText, Memory>
    requires few { W ≤ 8 }
    requires consistent { IsConsistent prepared.now }
    requires sentence { FitsTable prepared.now.tabled.halting sentence.now.start sentence.now.tokens }
    ensures { IfOk result (λ made. IsExplainedSentence prepared.now sentence.now made) }
{
    let tokens = sentence.tokens.as_slice();
    let ended = verdict(alloc, &prepared.tabled.halting, sentence.start, tokens)?;
    match ended {
        Verdict::Reject { at, .. } if at as usize + 1 == tokens.len() => Ok(FinalText::Written {
            text: entry_of(alloc, prepared, sentence)?,
        }),
        Verdict::Reject { at, .. } => refuse_early(alloc, at),
        Verdict::Accept { .. } => refuse_ending(alloc, ended),
        Verdict::Overshoot { .. } => refuse_ending(alloc, ended),
    }
}

/// The final text for a line.
fn explain_line<const W: usize>(
    alloc: Global,
    prepared: &Prepared<W>,
    line: &[u8],
) -> Result<FinalText, Memory>
    requires few { W ≤ 8 }
    requires consistent { IsConsistent prepared.now }
    requires short { length line.now < 2 ^ 32 }
    ensures { IfOk result (λ made. IsExplained prepared.now line.now made) }
{
    match read_sentence(alloc, &prepared.grammar, line) {
        Ok(sentence) => explain_sentence(alloc, prepared, &sentence),
        Err(SentenceFault::Unreadable) => refuse_input(alloc, b"unreadable\n", b"", b""),
        Err(SentenceFault::UnknownStart { name }) => {
            refuse_input(alloc, b"unknown start ", name.as_slice(), b"\n")
        }
        Err(SentenceFault::MissingStart) => refuse_input(alloc, b"missing start\n", b"", b""),
        Err(SentenceFault::UnknownToken { name }) => {
            refuse_input(alloc, b"unknown token ", name.as_slice(), b"\n")
        }
        Err(SentenceFault::Memory) => Err(Memory),
    }
}

/// A mode that asks for the first line only, and writes its entry or its refusal at the end. An input without lines is
/// treated as an empty line.
#[derive(Drop)]
struct Explaining<'a, const W: usize> {
    prepared: &'a Prepared<W>,
    line: Sequence<u8>,
}

impl<'a, const W: usize> Mode for Explaining<'a, W> {
    ghost use Rattle.std.specs.Prelude.{◌≡◌, ◌≤◌, ◌<◌, ◌^◌, length};
    ghost use Rattle.mh_top_plans.specs.Plan.{Plan, plan_behavior, Explains};
    ghost use Rattle.mh_top_drive.specs.code.Prepared.{IsConsistent};

    ghost State = { Plan };

    ghost behavior = { plan_behavior };

    ghost Is = { λ s plan. (W ≤ 8) × IsConsistent s.prepared.now × (length s.line < 2 ^ 32) × (plan ≡ Explains s.prepared.now s.line) };

    fn asks(&self) -> Asks {
        Asks::FirstLine
    }

    fn answer(&mut self, alloc: Global, line: &[u8]) -> Result<Vec<u8>, Memory> {
        self.line = Sequence::from_vec(line.to_vec(alloc)?);
        Ok(Vec::new(alloc))
    }

    fn end<O: Sink>(self, alloc: Global, out: &mut O) -> Result<(), Stop> {
        let made = explain_line(alloc, self.prepared, self.line.as_slice())?;
        write_final(out, made)
    }
}

/// Writes the entry of the sentence in the first line of the input, or refuses the line.
pub fn explain<I: Source, O: Sink, const W: usize>(
    alloc: Global,
    prepared: &Prepared<W>,
    input: &mut I,
    out: &mut O,
) -> Result<(), Stop>
    requires { MayRun W prepared.now (I.MayRead input.old) (O.MayWrite out.old) }
    ensures ran { ModeRan plan_behavior (Explains prepared.now []) (I.left input.old) (I.left input.new)
        (O.written out.old) (O.written out.new) result }
    ensures counts { InputAndOutCounts (I.faults input.old) (I.faults input.new)
        (O.faults out.old) (O.faults out.new) result }
{
    let mode = Explaining {
        prepared,
        line: Sequence::new(alloc),
    };
    drive(alloc, mode, input, out)
}
