//! Words of tokens, and the answers for nonterminals.
ghost use Rattle.std.specs.Prelude.{◌≡◌, length};

use mh_grammar::Token;
use std::marker::Model;

/// The most tokens of a shortest word that is given out.
pub const MAX_WORD: usize = 1000;

/// A word: a list of tokens.
#[derive(Drop)]
pub struct TokenWord {
    tokens: Vec<Token>,
}

impl Model for TokenWord {
    ghost use Rattle.std.specs.Prelude.{List, ℕ};

    ghost Value = { List ℕ };

    ghost view = { λ w. w.tokens.items };
}

impl TokenWord {
    /// The word that consists of the tokens.
    pub fn from_vec(tokens: Vec<Token>) -> TokenWord
        ensures { result ≡ tokens.items }
    {
        TokenWord { tokens }
    }

    /// Gives the tokens of the word away, in order.
    pub fn into_vec(self) -> Vec<Token>
        ensures { result.items ≡ self }
    {
        self.tokens
    }

    /// The tokens of the word, in order.
    pub fn as_slice(&self) -> &[Token]
        ensures { result.now ≡ self.now }
    {
        self.tokens.as_slice()
    }

    /// The number of tokens.
    pub fn len(&self) -> usize
        ensures { result ≡ length self.now }
    {
        self.tokens.len()
    }
}

/// The answer for a nonterminal.
#[derive(Drop)]
pub enum Shortest {
    /// The nonterminal derives no word.
    None,
    /// Each word of the nonterminal has more than [`MAX_WORD`](crate::word::MAX_WORD) tokens.
    Longer,
    /// The shortest word; among words of the same length, the first by the numbers of the tokens.
    Word(TokenWord),
}
