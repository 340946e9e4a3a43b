//! Lists of tokens.
ghost use Rattle.std.specs.Prelude.{◌≡◌, slice_get};

use mh_grammar::{Sequence, Token};
use std::marker::Model;

/// A list of tokens.
#[derive(Drop)]
pub struct TokenList {
    tokens: Sequence<Token>,
}

impl Model for TokenList {
    ghost use Rattle.std.specs.Prelude.{List, ℕ};

    ghost Value = { List ℕ };

    ghost view = { λ l. l.tokens };
}

impl TokenList {
    /// The list of the tokens of a vector.
    pub(crate) fn from_vec(tokens: Vec<Token>) -> TokenList
        ensures { result ≡ tokens.items }
    {
        TokenList {
            tokens: Sequence::from_vec(tokens),
        }
    }

    /// The token at an index, counted from 0, or `None` exactly if the index is past the end of the list. Takes no
    /// memory.
    pub fn get(&self, place: u32) -> Option<Token>
        ensures { result ≡ slice_get self.now place }
    {
        self.tokens.get(place as usize).copied()
    }

    /// The tokens in order.
    pub fn as_slice(&self) -> &[Token]
        ensures { result.now ≡ self.now }
    {
        self.tokens.as_slice()
    }
}
