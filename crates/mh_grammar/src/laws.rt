//! Laws of the definitions, each the contract of an empty function.
ghost use Rattle.std.specs.Prelude.{◌∷◌, ℕ, List};
ghost use Rattle.mh_grammar.specs.declared.types.Symbol.{Symbol};
ghost use Rattle.mh_grammar.specs.Plain.{plain_of, Derives, DerivesAll};
ghost use Rattle.mh_grammar.specs.First.{First, FirstOf};

use crate::types::Grammar;

/// Law: the first token of each word that a symbol derives is in FIRST of the symbol; the same holds for strings of
/// symbols.
pub fn words_begin_with_first(grammar: &Grammar)
    ensures symbol { (x : Symbol) (a : ℕ) (w : List ℕ) → Derives (plain_of grammar.now) x (a ∷ w) → First (plain_of grammar.now) x a }
    ensures string { (xs : List Symbol) (a : ℕ) (w : List ℕ) → DerivesAll (plain_of grammar.now) xs (a ∷ w) → FirstOf (plain_of grammar.now) xs a }
{
    let _grammar = grammar;
}
