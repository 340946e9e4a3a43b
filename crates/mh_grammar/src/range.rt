//! Tests whether the numbers and the costs of a grammar are in range.
ghost use Rattle.std.specs.Prelude.{◌≡◌, ◌<◌, ◌≤◌, ◌↔◌, IsTrue, length, ◌^◌};
ghost use Rattle.std.specs.List.{All};
ghost use Rattle.mh_grammar.specs.Costs.{HaveCosts, IsCost};
ghost use Rattle.mh_grammar.specs.Plain.{plain_of, IsInRange, IsSymbolBelow, IsProductionBelow};

use crate::types::{Grammar, MAX_COST, MAX_NUMBERED, Production, Symbol};

/// The greatest number of productions, including those of the starts, and of symbols in a right side: both are counted
/// in 32 bits.
const MAX_PLACES: usize = 0xffff_ffff;

/// Returns whether left sides, symbols and starts are in range, and every count is within its limit.
pub fn is_in_range(grammar: &Grammar) -> bool
    ensures { IsTrue result ↔ IsInRange (plain_of grammar.now) }
{
    let tokens = grammar.tokens.len();
    let nonterminals = grammar.nonterminals.len();
    let starts = grammar.starts.len();
    tokens <= MAX_NUMBERED
        && nonterminals <= MAX_NUMBERED
        && starts <= MAX_NUMBERED
        && grammar.productions.len() <= MAX_PLACES - starts
        && are_starts_in_range(grammar.starts.as_slice(), nonterminals)
        && are_productions_in_range(grammar.productions.as_slice(), tokens, nonterminals)
}

fn are_starts_in_range(starts: &[u16], nonterminals: usize) -> bool
    ensures { IsTrue result ↔ All (λ s. s < nonterminals) starts.now }
{
    starts.iter().all(|s| usize::from(*s) < nonterminals)
}

fn are_productions_in_range(productions: &[Production], tokens: usize, nonterminals: usize) -> bool
    ensures { IsTrue result ↔ All (λ p. IsProductionBelow tokens nonterminals p × length p.rhs < 2 ^ 32) productions.now }
{
    productions
        .iter()
        .all(|p| is_production_in_range(p, tokens, nonterminals))
}

fn is_production_in_range(production: &Production, tokens: usize, nonterminals: usize) -> bool
    ensures { IsTrue result ↔ IsProductionBelow tokens nonterminals production.now × length production.now.rhs < 2 ^ 32 }
{
    usize::from(production.lhs) < nonterminals
        && production.rhs.len() <= MAX_PLACES
        && are_symbols_in_range(production.rhs.as_slice(), tokens, nonterminals)
}

fn are_symbols_in_range(symbols: &[Symbol], tokens: usize, nonterminals: usize) -> bool
    ensures { IsTrue result ↔ All (IsSymbolBelow tokens nonterminals) symbols.now }
{
    symbols
        .iter()
        .all(|s| is_symbol_in_range(*s, tokens, nonterminals))
}

fn is_symbol_in_range(symbol: Symbol, tokens: usize, nonterminals: usize) -> bool
    ensures { IsTrue result ↔ IsSymbolBelow tokens nonterminals symbol }
{
    match symbol {
        Symbol::T(a) => usize::from(a) < tokens,
        Symbol::N(n) => usize::from(n) < nonterminals,
    }
}

/// Returns whether the cost of each token is from 1 to [`MAX_COST`](crate::types::MAX_COST).
pub fn has_costs_in_range(grammar: &Grammar) -> bool
    ensures { IsTrue result ↔ HaveCosts grammar.now.tokens }
{
    grammar
        .tokens
        .as_slice()
        .iter()
        .all(|token| is_cost(token.cost))
}

fn is_cost(cost: u32) -> bool
    ensures { IsTrue result ↔ IsCost cost }
{
    1 <= cost && cost <= MAX_COST
}
