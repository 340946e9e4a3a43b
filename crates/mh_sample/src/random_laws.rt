//! Laws of the definitions, each as the contract of an empty function.
ghost use Rattle.std.specs.Prelude.{◌≡◌, ◌≤◌, ℕ, List, length};
ghost use Rattle.mh_grammar.specs.Plain.{plain_of, IsSentence};
ghost use Rattle.mh_sample.specs.Random.{IsRandom};

use mh_grammar::Grammar;

/// A random sentence is a sentence of the first start symbol, and has at most n tokens.
pub fn random_sentence_is_sentence(grammar: &Grammar)
    ensures { (seed n : ℕ) (s : List ℕ) → IsRandom (plain_of grammar.now) seed n s → IsSentence (plain_of grammar.now) 0 s × (length s ≤ n) }
{
    let _grammar = grammar;
}

/// The random sentence of a seed and a limit is unique.
pub fn random_sentence_is_unique(grammar: &Grammar)
    ensures { (seed n : ℕ) (s t : List ℕ) → IsRandom (plain_of grammar.now) seed n s → IsRandom (plain_of grammar.now) seed n t → s ≡ t }
{
    let _grammar = grammar;
}
