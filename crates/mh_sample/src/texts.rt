//! Writes the grammar and the sentences of a sample.
ghost use Rattle.std.specs.Prelude.{◌≡◌, ◌<◌, ◌≤◌, ◌+◌, ◌-◌, ◌%◌, ◌++◌, IfOk, OnOk};
ghost use Rattle.mh_sample.specs.Texts.{operators_of, repeated_text, each_from, token_line, left_text, level_line, last_level_line, grammar_text, operator_at, operand_text, closed_parentheses, sentence_text, sentence_line, sentences_text};
ghost use Rattle.mh_sample.specs.SampleSize.{sample_size};
ghost use Rattle.mh_sample.specs.code.SampleSentences.{IsInSample};

use mh_grammar::Memory;
use mh_grammar_texts::{write_between, write_number};
use std::alloc::Global;

/// The number of sentences of a sample.
pub const SENTENCES: u32 = 3_000;

/// A grammar file and its sentences, one a line.
#[derive(Drop)]
pub struct Sample {
    pub grammar: Vec<u8>,
    pub sentences: Vec<u8>,
}

/// A sentence of a sample.
#[derive(Clone, Copy)]
pub(crate) struct SampleSentence {
    /// The number of operators of the sample's grammar.
    pub(crate) operators: u32,
    /// The number of the sentence, from 0.
    pub(crate) number: u32,
}

/// The number of operators of a sample's grammar, from 2 to 31.
pub(crate) fn operators(number: u32) -> u32
    ensures { result ≡ operators_of number }
{
    2 + number % 30
}

#[tactic(auto, unfolding(crate::specs::Texts::token_line))]
fn write_token(text: &mut Vec<u8>, operator: u32) -> Result<(), Memory>
    ensures { OnOk result (text.new.items ≡ text.old.items ++ token_line operator) }
{
    write_between(text, b"%token OP", operator, b"\n")
}

/// Appends the declarations of the operators.
fn write_tokens(text: &mut Vec<u8>, operators: u32) -> Result<(), Memory>
    requires { operators < 32 }
    ensures { OnOk result (text.new.items ≡ text.old.items ++ each_from token_line 1 operators) }
{
    for place in 0..operators {
        write_token(text, place + 1)?;
    }
    Ok(())
}

/// Appends the beginning of a level's rule: the left operand is of the same level.
#[tactic(auto, unfolding(crate::specs::Texts::left_text))]
fn write_left(text: &mut Vec<u8>, level: u32) -> Result<(), Memory>
    ensures { OnOk result (text.new.items ≡ text.old.items ++ left_text level) }
{
    write_between(text, b"e", level, b": e")?;
    write_number(text, level)?;
    write_between(text, b" OP", level, b" ")
}

/// Appends the rule of a level whose operands are the expressions of the next level.
#[tactic(auto, unfolding(crate::specs::Texts::right_text))]
fn write_level(text: &mut Vec<u8>, level: u32) -> Result<(), Memory>
    requires { level < 32 }
    ensures { OnOk result (text.new.items ≡ text.old.items ++ level_line level) }
{
    let next = level + 1;
    write_left(text, level)?;
    write_between(text, b"e", next, b" {} | ")?;
    write_between(text, b"e", next, b" {}\n")
}

/// Appends the rules of all levels but the last.
fn write_levels(text: &mut Vec<u8>, levels: u32) -> Result<(), Memory>
    requires { levels < 32 }
    ensures { OnOk result (text.new.items ≡ text.old.items ++ each_from level_line 1 levels) }
{
    for place in 0..levels {
        write_level(text, place + 1)?;
    }
    Ok(())
}

/// Appends the rule of the last level, whose operands are atoms.
#[tactic(auto, unfolding(crate::specs::Texts::right_text))]
fn write_last_level(text: &mut Vec<u8>, level: u32) -> Result<(), Memory>
    ensures { OnOk result (text.new.items ≡ text.old.items ++ last_level_line level) }
{
    write_left(text, level)?;
    text.extend_from_slice(b"a {} | a {}\n")?;
    Ok(())
}

/// The grammar file of a sample. Fails only if memory runs out.
pub fn sample_grammar(alloc: Global, number: u32) -> Result<Vec<u8>, Memory>
    ensures { IfOk result (λ text. text.items ≡ grammar_text number) }
{
    let operators = operators(number);
    let mut text = b"%token EOF LP RP INT\n".to_vec(alloc)?;
    write_tokens(&mut text, operators)?;
    text.extend_from_slice(b"%start main\n%%\nmain: e1 EOF {}\n")?;
    write_levels(&mut text, operators - 1)?;
    write_last_level(&mut text, operators)?;
    text.extend_from_slice(b"a: INT {} | LP e1 RP {}\n")?;
    Ok(text)
}

/// Appends a text several times.
fn write_times(text: &mut Vec<u8>, piece: &[u8], count: u32) -> Result<(), Memory>
    ensures { OnOk result (text.new.items ≡ text.old.items ++ repeated_text count piece.now) }
{
    for _ in 0..count {
        text.extend_from_slice(piece)?;
    }
    Ok(())
}

/// Appends an operator and an operand.
#[tactic(auto, unfolding(crate::specs::Texts::operand_text))]
fn write_operand(text: &mut Vec<u8>, operator: u32) -> Result<(), Memory>
    ensures { OnOk result (text.new.items ≡ text.old.items ++ operand_text operator) }
{
    write_between(text, b" OP", operator, b" INT")
}

/// Appends the operators of a sentence, each with its right operand.
fn write_operands(text: &mut Vec<u8>, sentence: SampleSentence) -> Result<(), Memory>
    requires { IsInSample sentence }
    ensures { OnOk result (text.new.items ≡ text.old.items ++ each_from (λ place. operand_text (operator_at sentence.operators sentence.number place)) 1 (sentence.number % 5)) }
{
    let SampleSentence { operators, number } = sentence;
    for place in 0..number % 5 {
        write_operand(text, 1 + number * (place + 1) % operators)?;
    }
    Ok(())
}

/// How many parentheses a sentence closes: as many as it opens, but one fewer in every third sentence that opens any.
fn count_closed(sentence: u32) -> u32
    ensures { result ≡ closed_parentheses sentence }
{
    let count = sentence % 17;
    if sentence % 3 == 0 {
        count.saturating_sub(1)
    } else {
        count
    }
}

/// Appends a sentence without LF.
#[tactic(auto, unfolding(crate::specs::Texts::sentence_text))]
pub(crate) fn write_sentence(text: &mut Vec<u8>, sentence: SampleSentence) -> Result<(), Memory>
    requires { IsInSample sentence }
    ensures { OnOk result (text.new.items ≡ text.old.items ++ sentence_text sentence.operators sentence.number) }
{
    write_times(text, b"LP ", sentence.number % 17)?;
    text.extend_from_slice(b"INT")?;
    write_operands(text, sentence)?;
    write_times(text, b" RP", count_closed(sentence.number))?;
    text.extend_from_slice(b" EOF")?;
    Ok(())
}

fn write_line(text: &mut Vec<u8>, sentence: SampleSentence) -> Result<(), Memory>
    requires { IsInSample sentence }
    ensures { OnOk result (text.new.items ≡ text.old.items ++ sentence_line sentence.operators sentence.number) }
{
    write_sentence(text, sentence)?;
    text.push(b'\n')?;
    Ok(())
}

/// Appends the first `count` sentences, each with LF at the end.
fn write_sentences(text: &mut Vec<u8>, operators: u32, count: u32) -> Result<(), Memory>
    requires some { 0 < operators }
    requires few { operators < 32 }
    requires count { count ≤ sample_size }
    ensures { OnOk result (text.new.items ≡ text.old.items ++ each_from (sentence_line operators) 0 count) }
{
    for number in 0..count {
        write_line(text, SampleSentence { operators, number })?;
    }
    Ok(())
}

/// The sentences of a sample, one a line.
#[tactic(auto, unfolding(crate::specs::Texts::sentences_text))]
pub(crate) fn sample_sentences(alloc: Global, number: u32) -> Result<Vec<u8>, Memory>
    ensures { IfOk result (λ text. text.items ≡ sentences_text number) }
{
    let mut text = Vec::new(alloc);
    write_sentences(&mut text, operators(number), SENTENCES)?;
    Ok(text)
}
