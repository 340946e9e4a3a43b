//! The number of the empty word, and the token before the dot of a key.
ghost use Rattle.std.specs.Prelude.{◌≡◌};
ghost use Rattle.mh_facts.specs.code.WordCosts.{before_dot, listed};

use mh_facts::FactKey;
use mh_grammar::{Symbol, Token};
use mh_tables_core::Table;

/// The number of the empty word.
pub const EMPTY: usize = 0;

/// The token before the dot of a key, if the symbol there is a token.
#[tactic(auto, unfolding(mh_grammar::specs::Plain::rhs_of))]
pub fn token_before(table: &Table, key: FactKey) -> Option<Token>
    ensures { listed result ≡ before_dot table.now key }
{
    if key.production >= table.productions() {
        return None;
    }
    let place = if key.dot == 0 { 0 } else { key.dot - 1 };
    if place >= table.length_of(key.production) {
        return None;
    }
    match table.symbol_of(key.production, place) {
        Symbol::T(token) => Some(token),
        Symbol::N(_) => None,
    }
}
