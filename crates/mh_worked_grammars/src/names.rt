//! Tests whether the names of a grammar's tokens are pairwise different.
ghost use Rattle.std.specs.Prelude.{◌≡◌, ◌≤◌, ◌<◌, ◌↔◌, ℕ, IsTrue, length};
ghost use Rattle.mh_grammar.specs.Names.{token_name as name_of};
ghost use Rattle.mh_validate_valid.specs.Valid.{AreTokenNamesDistinct};

use mh_grammar::{Grammar, Token, token_name};

/// Returns true if the two names are equal.
fn is_one(left: &[u8], right: &[u8]) -> bool
    ensures { IsTrue result ↔ (left.now ≡ right.now) }
{
    left == right
}

/// Returns true if no earlier token has the same name.
fn is_new(grammar: &Grammar, token: Token) -> bool
    ensures { IsTrue result → (n : ℕ) → n < token → name_of grammar.now n ≡ name_of grammar.now token → ⊥ }
{
    for other in 0..token {
        if is_one(token_name(grammar, other), token_name(grammar, token)) {
            return false;
        }
    }
    true
}

/// Returns true if the names of a small grammar's tokens are pairwise different, and none is the name of the end of the
/// stream.
pub fn are_apart(grammar: &Grammar) -> bool
    requires { length grammar.now.tokens ≤ 64 }
    ensures { IsTrue result → AreTokenNamesDistinct grammar.now }
{
    for token in 0..grammar.tokens.len() as Token {
        if is_one(token_name(grammar, token), b"#") {
            return false;
        }
        if !is_new(grammar, token) {
            return false;
        }
    }
    true
}
