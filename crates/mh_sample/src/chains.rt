//! Makes the words of right sides from the words found so far.
ghost use Rattle.std.specs.Prelude.{◌≡◌, ◌^◌, ◌<◌, ◌↔◌, Some, None, length, IsTrue, IfOk};
ghost use Rattle.std.specs.Option.{option_map};
ghost use Rattle.std.specs.List.{All};
ghost use Rattle.mh_grammar.specs.Plain.{IsSymbolBelow};
ghost use Rattle.mh_sample.specs.code.Chains.{chain, word_of, IsPut, IsWithin};

use crate::word::TokenWord;
use mh_grammar::{Memory, Symbol, Token};
use std::alloc::Global;

/// Returns true if each symbol has a word and these words have at most `limit` tokens together.
pub fn fits(words: &[Option<TokenWord>], symbols: &[Symbol], limit: usize) -> bool
    requires { All (IsSymbolBelow (2 ^ 16) (length words.now)) symbols.now }
    ensures { IsTrue result ↔ IsWithin limit (chain words.now symbols.now) }
{
    let mut left = limit;
    for symbol in symbols {
        match length_of(words, *symbol) {
            None => return false,
            Some(length) => {
                if left < length {
                    return false;
                }
                left -= length;
            }
        }
    }
    true
}

/// The number of tokens in the word of a symbol, if the symbol has a word.
fn length_of(words: &[Option<TokenWord>], symbol: Symbol) -> Option<usize>
    requires { IsSymbolBelow (2 ^ 16) (length words.now) symbol }
    ensures { result ≡ option_map length (word_of words.now symbol) }
{
    match symbol {
        Symbol::T(_) => Some(1),
        Symbol::N(n) => match &words[usize::from(n)] {
            None => None,
            Some(word) => Some(word.len()),
        },
    }
}

/// The concatenation of the words of the symbols, if each symbol has a word.
pub fn spelled(
    alloc: Global,
    words: &[Option<TokenWord>],
    symbols: &[Symbol],
) -> Result<Option<TokenWord>, Memory>
    requires { All (IsSymbolBelow (2 ^ 16) (length words.now)) symbols.now }
    ensures { IfOk result (λ word. word ≡ chain words.now symbols.now) }
{
    let mut tokens = Vec::new(alloc);
    for symbol in symbols {
        if !put_word(words, *symbol, &mut tokens)? {
            return Ok(None);
        }
    }
    Ok(Some(TokenWord::from_vec(tokens)))
}

/// Appends the word of a symbol to the tokens. Returns false if the symbol has no word.
fn put_word(
    words: &[Option<TokenWord>],
    symbol: Symbol,
    tokens: &mut Vec<Token>,
) -> Result<bool, Memory>
    requires { IsSymbolBelow (2 ^ 16) (length words.now) symbol }
    ensures { IfOk result (IsPut (word_of words.now symbol) tokens.old.items tokens.new.items) }
{
    match symbol {
        Symbol::T(token) => tokens.push(token)?,
        Symbol::N(n) => match &words[usize::from(n)] {
            None => return Ok(false),
            Some(word) => tokens.extend_from_slice(word.as_slice())?,
        },
    }
    Ok(true)
}
