//! The names of a grammar's symbols.
ghost use Rattle.std.specs.Prelude.{◌≡◌};
ghost use Rattle.mh_grammar.specs.Names.{token_name, nonterminal_name, symbol_name, left_side_name, start_name};

use crate::types::{Grammar, Symbol, Token};

/// The name of a token; empty if the grammar lacks the token.
#[tactic(auto, unfolding(crate::specs::Names::token_name))]
pub fn token_name(grammar: &Grammar, token: Token) -> &[u8]
    ensures { result.now ≡ token_name grammar.now token }
{
    match grammar.tokens.get(usize::from(token)) {
        Some(info) => info.name.as_slice(),
        None => b"",
    }
}

/// The name of a nonterminal; empty if the grammar lacks the nonterminal.
#[tactic(auto, unfolding(crate::specs::Names::nonterminal_name))]
pub fn nonterminal_name(grammar: &Grammar, nonterminal: u16) -> &[u8]
    ensures { result.now ≡ nonterminal_name grammar.now nonterminal }
{
    match grammar.nonterminals.get(usize::from(nonterminal)) {
        Some(info) => info.name.as_slice(),
        None => b"",
    }
}

/// The name of a symbol; empty if the grammar lacks the symbol.
pub fn symbol_name(grammar: &Grammar, symbol: Symbol) -> &[u8]
    ensures { result.now ≡ symbol_name grammar.now symbol }
{
    match symbol {
        Symbol::T(token) => token_name(grammar, token),
        Symbol::N(nonterminal) => nonterminal_name(grammar, nonterminal),
    }
}

/// The name of an ordinary production's left side, by the production's number; empty for a start production.
#[tactic(auto, unfolding(crate::specs::Names::left_side_name))]
pub fn left_side_name(grammar: &Grammar, production: u32) -> &[u8]
    ensures { result.now ≡ left_side_name grammar.now production }
{
    let Some(place) = (production as usize).checked_sub(grammar.starts.len()) else {
        return b"";
    };
    match grammar.productions.get(place) {
        Some(production) => nonterminal_name(grammar, production.lhs),
        None => b"",
    }
}

/// The name of a start's symbol, by the start's number; empty if the grammar lacks the start.
#[tactic(auto, unfolding(crate::specs::Names::start_name))]
pub fn start_name(grammar: &Grammar, start: u16) -> &[u8]
    ensures { result.now ≡ start_name grammar.now start }
{
    match grammar.starts.get(usize::from(start)) {
        Some(nonterminal) => nonterminal_name(grammar, *nonterminal),
        None => b"",
    }
}
