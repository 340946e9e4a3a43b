//! The order of words: by length, then by the numbers of the tokens. Offers are taken in this order, and a word is
//! replaced only by a word that comes before.
ghost use Rattle.std.specs.Prelude.{◌≡◌, length};
ghost use Rattle.mh_sample.specs.code.Chains.{comes_before as comes_before_of, lex_less};

use crate::word::TokenWord;
use mh_grammar::Token;

/// A word that a production offers to its left side. The order of offers is the order of their words: by length, then
/// by tokens.
#[derive(PartialEq, Eq, PartialOrd, Ord, Drop)]
pub struct Offer {
    /// The number of tokens.
    pub length: usize,
    pub tokens: Vec<Token>,
    /// The index of the production.
    pub place: usize,
}

/// Returns true if the word has the lower number at the first index where it differs from another word of its length.
fn is_lower(word: &[Token], other: &[Token]) -> bool
    requires { length word.now ≡ length other.now }
    ensures { result ≡ lex_less word.now other.now }
{
    for (place, token) in word.iter().enumerate() {
        if *token != other[place] {
            return *token < other[place];
        }
    }
    false
}

/// Returns true if the word comes before the other word, or there is no other word.
pub fn comes_before(word: &TokenWord, other: &Option<TokenWord>) -> bool
    ensures { result ≡ comes_before_of word.now other.now }
{
    match other {
        None => true,
        Some(other) => {
            if word.len() == other.len() {
                is_lower(word.as_slice(), other.as_slice())
            } else {
                word.len() < other.len()
            }
        }
    }
}
