//! Writes the texts of shortest words and of random sentences.
ghost use Rattle.std.specs.Prelude.{◌≡◌, ◌<◌, ◌≤◌, ◌++◌, ◌∷◌, [], length as len, IfErr, IfOk, OnOk};
ghost use Rattle.mh_grammar.specs.Plain.{plain_of, IsInRange};
ghost use Rattle.mh_msgfile.specs.FileTexts.{names_after, sentence_text as sentence_text'};
ghost use Rattle.mh_sample.specs.Sentences.{shortest_line, word_text, IsRandomText, IsShortestText};
ghost use Rattle.mh_sample.specs.Faults.{MayFail};
ghost use Rattle.mh_sample.specs.WordLimit.{max_word};

use crate::random::{RandomFault, random_sentence};
use crate::shortest::shortest_words;
use crate::word::{Shortest, TokenWord};
use mh_grammar::{Grammar, Memory, Token, nonterminal_name, token_name};
use mh_msgfile::write_sentence;
use std::alloc::Global;

/// Writes the names of the tokens, each after one space.
fn write_tokens(text: &mut Vec<u8>, grammar: &Grammar, tokens: &[Token]) -> Result<(), Memory>
    ensures { OnOk result (text.new.items ≡ text.old.items ++ names_after grammar.now tokens.now) }
{
    for token in tokens {
        text.push(b' ')?;
        text.extend_from_slice(token_name(grammar, *token))?;
    }
    Ok(())
}

/// Writes the tokens of the shortest word, or the words for its absence.
fn write_word(text: &mut Vec<u8>, grammar: &Grammar, shortest: &Shortest) -> Result<(), Memory>
    ensures { OnOk result (text.new.items ≡ text.old.items ++ word_text grammar.now shortest.now) }
{
    match shortest {
        Shortest::None => Ok(text.extend_from_slice(b" none")?),
        Shortest::Longer => Ok(text.extend_from_slice(b" longer than 1000")?),
        Shortest::Word(word) => write_tokens(text, grammar, word.as_slice()),
    }
}

/// Writes the line of the nonterminal.
fn write_line(
    text: &mut Vec<u8>,
    grammar: &Grammar,
    nonterminal: u16,
    shortest: &Shortest,
) -> Result<(), Memory>
    ensures { OnOk result (text.new.items ≡ text.old.items ++ shortest_line grammar.now nonterminal shortest.now) }
{
    text.extend_from_slice(nonterminal_name(grammar, nonterminal))?;
    text.push(b':')?;
    write_word(text, grammar, shortest)?;
    text.push(b'\n')?;
    Ok(())
}

/// A line for each nonterminal of the grammar, with its shortest word. The call fails only if memory runs out.
pub fn shortest_text(alloc: Global, grammar: &Grammar) -> Result<Vec<u8>, Memory>
    requires { IsInRange (plain_of grammar.now) }
    ensures { IfOk result (λ text. IsShortestText grammar.now text.items) }
{
    let answers = shortest_words(alloc, grammar)?;
    let mut text = Vec::new(alloc);
    for (place, answer) in answers.iter().enumerate() {
        write_line(&mut text, grammar, place as u16, answer)?;
    }
    Ok(text)
}

/// The canonical line of a sentence of the first start symbol.
fn sentence_text(alloc: Global, grammar: &Grammar, word: &TokenWord) -> Result<Vec<u8>, Memory>
    ensures { IfOk result (λ text. text.items ≡ sentence_text' grammar.now 0 word.now ++ 10 ∷ []) }
{
    let mut text = Vec::new(alloc);
    write_sentence(&mut text, grammar, 0, word.as_slice())?;
    text.push(b'\n')?;
    Ok(text)
}

/// The canonical line of the random sentence of the seed, of at most `length` tokens. The call fails with `NoneWithin`
/// exactly if each sentence of the first start symbol has more tokens, and with `Memory` only if memory runs out.
pub fn random_text(
    alloc: Global,
    grammar: &Grammar,
    seed: u64,
    length: u32,
) -> Result<Vec<u8>, RandomFault>
    requires range { IsInRange (plain_of grammar.now) }
    requires start { 0 < len grammar.now.starts }
    requires few { length ≤ max_word }
    ensures text { IfOk result (λ text. IsRandomText grammar.now seed length text.items) }
    ensures fault { IfErr result (MayFail (plain_of grammar.now) length) }
{
    match random_sentence(alloc, grammar, seed, length) {
        Ok(word) => Ok(sentence_text(alloc, grammar, &word)?),
        Err(fault) => Err(fault),
    }
}
