//! Counts how a table parses the sentences of a sample.
ghost use Rattle.std.specs.Prelude.{◌≡◌, ◌<◌, ◌≤◌, ◌^◌, ◌∷◌, ◌++◌, [], List, length, map, count_by, decimal, IfOk, OnOk};
ghost use Rattle.mh_grammar.specs.Plain.{plain_of, IsInRange};
ghost use Rattle.mh_grammar.specs.declared.types.Sentence.{Sentence as Sentence'};
ghost use Rattle.mh_tables_core.specs.Sentences.{FitsTable};
ghost use Rattle.mh_run.specs.Verdicts.{ending_for};
ghost use Rattle.mh_msgfile.specs.Sentences.{vocabulary_in, sentence_in};
ghost use Rattle.mh_sample.specs.Texts.{each_from};
ghost use Rattle.mh_sample.specs.Counts.{HaveEndings, IsSampleLine, counts_line as counts_text, endings_text, grammar_sizes, table_sizes, is_accepted, is_overshot, is_rejected, sample_sentences, sentences_of, sentences_at};
ghost use Rattle.mh_sample.specs.code.SampleLexicon.{HasNamesOf};
ghost use Rattle.mh_sample.specs.code.SampleSentences.{IsInSample};
ghost use Rattle.mh_sample.specs.SampleSize.{sample_size};

use crate::texts::{SENTENCES, SampleSentence, operators, write_sentence};
use mh_grammar::{Grammar, Memory, Sentence};
use mh_msgfile::{Lexicon, SentenceFault};
use mh_run::{Verdict, verdict};
use mh_tables_core::{Halting, Table};
use std::alloc::Global;

/// Appends the verdict of a sentence.
fn put_verdict(
    alloc: Global,
    table: &Halting,
    sentence: &Sentence,
    verdicts: &mut Vec<Verdict>,
) -> Result<(), Memory>
    requires { FitsTable table.now sentence.now.start sentence.now.tokens }
    ensures { OnOk result ((done : List Sentence') → HaveEndings table.now done (map ending_for verdicts.old.items) → HaveEndings table.now (done ++ sentence.now ∷ []) (map ending_for verdicts.new.items)) }
{
    let verdict = verdict(alloc, table, sentence.start, sentence.tokens.as_slice())?;
    verdicts.push(verdict)?;
    Ok(())
}

/// Appends the verdict of a line, if the line is a sentence.
fn judge_line(
    alloc: Global,
    lexicon: &Lexicon,
    table: &Halting,
    line: &[u8],
    verdicts: &mut Vec<Verdict>,
) -> Result<(), Memory>
    requires short { length line.now < 2 ^ 32 }
    requires names { HasNamesOf lexicon.now table.now }
    ensures { OnOk result ((done : List Sentence') → HaveEndings table.now done (map ending_for verdicts.old.items) → HaveEndings table.now (done ++ sentences_of (sentence_in (vocabulary_in lexicon.now) line.now)) (map ending_for verdicts.new.items)) }
{
    match lexicon.read(alloc, line) {
        Ok(sentence) => put_verdict(alloc, table, &sentence, verdicts),
        Err(SentenceFault::Memory) => Err(Memory),
        Err(SentenceFault::Unreadable) => Ok(()),
        Err(SentenceFault::UnknownStart { .. }) => Ok(()),
        Err(SentenceFault::MissingStart) => Ok(()),
        Err(SentenceFault::UnknownToken { .. }) => Ok(()),
    }
}

/// Appends the verdict of a sentence of the sample.
fn judge_sentence(
    alloc: Global,
    lexicon: &Lexicon,
    table: &Halting,
    sentence: SampleSentence,
    verdicts: &mut Vec<Verdict>,
) -> Result<(), Memory>
    requires sentence { IsInSample sentence }
    requires names { HasNamesOf lexicon.now table.now }
    ensures { OnOk result ((done : List Sentence') → HaveEndings table.now done (map ending_for verdicts.old.items) → HaveEndings table.now (done ++ sentences_at (vocabulary_in lexicon.now) sentence.operators sentence.number) (map ending_for verdicts.new.items)) }
{
    let mut line = Vec::new(alloc);
    write_sentence(&mut line, sentence)?;
    judge_line(alloc, lexicon, table, line.as_slice(), verdicts)
}

/// The verdicts of the first `count` sentences of a sample.
fn judge_sentences(
    alloc: Global,
    lexicon: &Lexicon,
    table: &Halting,
    operators: u32,
    count: u32,
) -> Result<Vec<Verdict>, Memory>
    requires some { 0 < operators }
    requires few { operators < 32 }
    requires count { count ≤ sample_size }
    requires names { HasNamesOf lexicon.now table.now }
    ensures { IfOk result (λ verdicts. HaveEndings table.now (each_from (sentences_at (vocabulary_in lexicon.now) operators) 0 count) (map ending_for verdicts.items)) }
{
    let mut verdicts = Vec::new(alloc);
    for number in 0..count {
        let sentence = SampleSentence { operators, number };
        judge_sentence(alloc, lexicon, table, sentence, &mut verdicts)?;
    }
    Ok(verdicts)
}

/// The verdicts of all sentences of a sample.
fn judge_sample(
    alloc: Global,
    number: u32,
    grammar: &Grammar,
    table: &Halting,
) -> Result<Vec<Verdict>, Memory>
    requires range { IsInRange (plain_of grammar.now) }
    requires same { table.now.grammar ≡ plain_of grammar.now }
    ensures { IfOk result (λ verdicts. HaveEndings table.now (sample_sentences grammar.now number) (map ending_for verdicts.items)) }
{
    let lexicon = Lexicon::new(alloc, grammar)?;
    judge_sentences(alloc, &lexicon, table, operators(number), SENTENCES)
}

fn count_accepts(verdicts: &[Verdict]) -> usize
    ensures { result ≡ count_by is_accepted (map ending_for verdicts.now) }
{
    verdicts
        .iter()
        .filter(|verdict| matches!(verdict, Verdict::Accept { .. }))
        .count()
}

fn count_overshoots(verdicts: &[Verdict]) -> usize
    ensures { result ≡ count_by is_overshot (map ending_for verdicts.now) }
{
    verdicts
        .iter()
        .filter(|verdict| matches!(verdict, Verdict::Overshoot { .. }))
        .count()
}

fn count_rejects(verdicts: &[Verdict]) -> usize
    ensures { result ≡ count_by is_rejected (map ending_for verdicts.now) }
{
    verdicts
        .iter()
        .filter(|verdict| matches!(verdict, Verdict::Reject { .. }))
        .count()
}

/// Appends some words and a count.
fn write_count(alloc: Global, text: &mut Vec<u8>, words: &[u8], count: usize) -> Result<(), Memory>
    ensures { OnOk result (text.new.items ≡ text.old.items ++ words.now ++ decimal count) }
{
    text.extend_from_slice(words)?;
    let digits = format!(in alloc; "{count}")?;
    text.extend_from_slice(digits.as_bytes())?;
    Ok(())
}

/// Appends the number of the sample and the sizes of its grammar.
#[tactic(auto, unfolding(crate::specs::Counts::grammar_sizes))]
fn write_grammar_sizes(
    alloc: Global,
    text: &mut Vec<u8>,
    number: u32,
    grammar: &Grammar,
) -> Result<(), Memory>
    ensures { OnOk result (text.new.items ≡ text.old.items ++ grammar_sizes number (length grammar.now.tokens) (length grammar.now.productions)) }
{
    write_count(alloc, text, b"sample ", number as usize)?;
    write_count(alloc, text, b": tokens ", grammar.tokens.len())?;
    write_count(alloc, text, b", productions ", grammar.productions.len())?;
    Ok(())
}

/// Appends the sizes of the table and of the catalogue.
#[tactic(auto, unfolding(crate::specs::Counts::table_sizes))]
fn write_table_sizes(
    alloc: Global,
    text: &mut Vec<u8>,
    table: &Table,
    listed: usize,
) -> Result<(), Memory>
    ensures { OnOk result (text.new.items ≡ text.old.items ++ table_sizes (length table.now.states) listed) }
{
    write_count(alloc, text, b", states ", table.states() as usize)?;
    write_count(alloc, text, b", listed ", listed)
}

/// Appends how many sentences end in each of the three ways.
#[tactic(auto, unfolding(crate::specs::Counts::endings_text))]
fn write_endings(alloc: Global, text: &mut Vec<u8>, verdicts: &[Verdict]) -> Result<(), Memory>
    ensures { OnOk result (text.new.items ≡ text.old.items ++ endings_text (map ending_for verdicts.now)) }
{
    write_count(alloc, text, b", accept ", count_accepts(verdicts))?;
    write_count(alloc, text, b", overshoot ", count_overshoots(verdicts))?;
    write_count(alloc, text, b", reject ", count_rejects(verdicts))
}

/// The line of all counts.
fn counts_line(
    alloc: Global,
    number: u32,
    grammar: &Grammar,
    table: &Table,
    listed: usize,
    verdicts: &[Verdict],
) -> Result<Vec<u8>, Memory>
    ensures { IfOk result (λ text. text.items ≡ counts_text number (length grammar.now.tokens) (length grammar.now.productions) (length table.now.states) listed (map ending_for verdicts.now)) }
{
    let mut text = Vec::new(alloc);
    write_grammar_sizes(alloc, &mut text, number, grammar)?;
    write_table_sizes(alloc, &mut text, table, listed)?;
    write_endings(alloc, &mut text, verdicts)?;
    text.push(b'\n')?;
    Ok(text)
}

/// The line of counts of a sample: its numbers of tokens, productions and states, the number of states in the catalogue
/// (`listed`), and how many sentences have each of the three verdicts accepted, overshot and rejected. Fails only if
/// memory runs out.
pub fn sample_line(
    alloc: Global,
    number: u32,
    grammar: &Grammar,
    table: &Halting,
    listed: usize,
) -> Result<Vec<u8>, Memory>
    requires range { IsInRange (plain_of grammar.now) }
    requires same { table.now.grammar ≡ plain_of grammar.now }
    ensures { IfOk result (λ text. IsSampleLine grammar.now table.now number listed text.items) }
{
    let verdicts = judge_sample(alloc, number, grammar, table)?;
    counts_line(
        alloc,
        number,
        grammar,
        table.table(),
        listed,
        verdicts.as_slice(),
    )
}
