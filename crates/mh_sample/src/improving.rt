//! Replaces words by earlier words, production by production, until no production gives an earlier word.
ghost use Rattle.std.specs.Prelude.{◌≡◌, ◌^◌, ℕ, Some, false, length, slice_get, vec_len, IfOk};
ghost use Rattle.std.specs.Option.{option_map_or};
ghost use Rattle.mh_sample.specs.declared.word.TheConstants.{MAX_WORD as MAX_WORD'};
ghost use Rattle.mh_grammar.specs.Plain.{PlainGrammar, plain_of, IsInRange, IsProductionBelow};
ghost use Rattle.mh_sample.specs.code.Chains.{AreClosed, Closes, Improves};

use crate::chains::{fits, spelled};
use crate::order::comes_before;
use crate::word::{MAX_WORD, TokenWord};
use mh_grammar::{Grammar, Memory, Production};
use std::alloc::Global;

/// The most tokens of a word that may replace the present word.
fn limit_for(present: &Option<TokenWord>) -> usize
    ensures { result ≡ option_map_or length present.now MAX_WORD' }
{
    match present {
        None => MAX_WORD,
        Some(word) => word.len(),
    }
}

/// Replaces the word of the left side by the word of the right side, if the word of the right side comes before.
/// Returns true if the word was replaced.
pub fn improve(
    alloc: Global,
    production: &Production,
    words: &mut Vec<Option<TokenWord>>,
) -> Result<bool, Memory>
    requires { IsProductionBelow (2 ^ 16) (vec_len words.old) production.now }
    ensures len { vec_len words.new ≡ vec_len words.old }
    ensures improves { IfOk result (λ improved. (g : PlainGrammar) → IsInRange g → (k : ℕ) → slice_get g.productions k ≡ Some production.now → Improves g words.old.items words.new.items improved) }
    ensures closed { IfOk result (λ improved. improved ≡ false → Closes words.old.items production.now) }
{
    let lhs = usize::from(production.lhs);
    let limit = limit_for(&words[lhs]);
    if !fits(words, production.rhs.as_slice(), limit) {
        return Ok(false);
    }
    match spelled(alloc, words, production.rhs.as_slice())? {
        None => Ok(false),
        Some(word) => {
            if !comes_before(&word, &words[lhs]) {
                return Ok(false);
            }
            words[lhs] = Some(word);
            Ok(true)
        }
    }
}

/// Improves the words by each production once, from the last to the first. Returns true if some word was replaced.
pub fn improve_all(
    alloc: Global,
    grammar: &Grammar,
    words: &mut Vec<Option<TokenWord>>,
) -> Result<bool, Memory>
    requires range { IsInRange (plain_of grammar.now) }
    requires len { vec_len words.old ≡ length grammar.now.nonterminals }
    ensures len { vec_len words.new ≡ length grammar.now.nonterminals }
    ensures improves { IfOk result (Improves (plain_of grammar.now) words.old.items words.new.items) }
    ensures closed { IfOk result (λ improved. improved ≡ false → AreClosed grammar.now.productions words.new.items) }
{
    let productions = grammar.productions.as_slice();
    let mut improved = false;
    for place in (0..productions.len()).rev() {
        improved |= improve(alloc, &productions[place], words)?;
    }
    Ok(improved)
}
