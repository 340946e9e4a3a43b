//! The public call: the shortest word of each nonterminal.
ghost use Rattle.std.specs.Prelude.{◌≡◌, ℕ, None, Some, length, slice_get, slice_index_or, vec_len, IfOk};
ghost use Rattle.mh_grammar.specs.Plain.{plain_of, IsInRange};
ghost use Rattle.mh_sample.specs.code.Chains.{answer_of, AreAnswers, AreClosed, AreDerived};
ghost use Rattle.mh_sample.specs.Shortest.{IsShortest};
ghost use Rattle.mh_sample.specs.declared.word.Shortest.{Shortest as Shortest'};

use crate::improving::improve_all;
use crate::offers::settle;
use crate::word::{Shortest, TokenWord};
use mh_grammar::{Grammar, Memory, productive};
use std::alloc::Global;

/// The shortest word of each nonterminal, in the order of the nonterminals: [`Shortest::None`] if the nonterminal
/// derives no word, and [`Shortest::Longer`] if each of its words has more than [`MAX_WORD`](crate::word::MAX_WORD)
/// tokens. The call fails only if memory runs out.
pub fn shortest_words(alloc: Global, grammar: &Grammar) -> Result<Vec<Shortest>, Memory>
    requires { IsInRange (plain_of grammar.now) }
    ensures len { IfOk result (λ v. vec_len v ≡ length grammar.now.nonterminals) }
    ensures each { IfOk result (λ v. (n : ℕ) (s : Shortest') → slice_get v.items n ≡ Some s → IsShortest (plain_of grammar.now) n s) }
{
    let productive = productive(alloc, grammar)?;
    let words = least_words(alloc, grammar)?;
    answers(alloc, words, productive.as_slice())
}

/// The least words of at most [`MAX_WORD`](crate::word::MAX_WORD) tokens.
fn least_words(alloc: Global, grammar: &Grammar) -> Result<Vec<Option<TokenWord>>, Memory>
    requires { IsInRange (plain_of grammar.now) }
    ensures len { IfOk result (λ v. vec_len v ≡ length grammar.now.nonterminals) }
    ensures derived { IfOk result (λ v. AreDerived (plain_of grammar.now) v.items) }
    ensures closed { IfOk result (λ v. AreClosed grammar.now.productions v.items) }
{
    let mut words = no_words(alloc, grammar.nonterminals.len())?;
    settle(alloc, grammar, &mut words)?;
    let mut improved = true;
    while improved {
        improved = improve_all(alloc, grammar, &mut words)?;
    }
    Ok(words)
}

/// A list that has no word for any nonterminal.
fn no_words(alloc: Global, nonterminals: usize) -> Result<Vec<Option<TokenWord>>, Memory>
    ensures len { IfOk result (λ v. vec_len v ≡ nonterminals) }
    ensures none { IfOk result (λ v. (n : ℕ) → slice_index_or v.items n None ≡ None) }
{
    let mut words = Vec::new(alloc);
    for _ in 0..nonterminals {
        words.push(None)?;
    }
    Ok(words)
}

/// The answers for all nonterminals, by their words and by whether they are productive.
fn answers(
    alloc: Global,
    words: Vec<Option<TokenWord>>,
    productive: &[bool],
) -> Result<Vec<Shortest>, Memory>
    requires { vec_len words ≡ length productive.now }
    ensures len { IfOk result (λ v. vec_len v ≡ vec_len words) }
    ensures each { IfOk result (λ v. AreAnswers words.items productive.now v.items) }
{
    let mut answers = Vec::new(alloc);
    for word in words {
        let productive = productive[answers.len()];
        answers.push(answer(word, productive))?;
    }
    Ok(answers)
}

/// The answer for one nonterminal.
fn answer(word: Option<TokenWord>, productive: bool) -> Shortest
    ensures { result ≡ answer_of word productive }
{
    match word {
        Some(word) => Shortest::Word(word),
        None if productive => Shortest::Longer,
        None => Shortest::None,
    }
}
