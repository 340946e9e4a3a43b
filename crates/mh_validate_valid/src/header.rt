//! The first test: the header is that of the grammar.
ghost use Rattle.std.specs.Prelude.{◌≡◌, ◌↔◌, map, IsTrue};
ghost use Rattle.mh_grammar.specs.Costs.{costs_of};
ghost use Rattle.mh_grammar.specs.Names.{nonterminal_name as name_of_nonterminal, symbol_name as name_of_symbol};
ghost use Rattle.mh_tabfile_form.specs.TableContent.{raw_production};
ghost use Rattle.mh_validate_valid.specs.Valid.{AreCostsOf, HasHeader};

use crate::names::is_named;
use mh_grammar::{
    Grammar, Name, Production, Sequence, Symbol, TokenInfo, nonterminal_name, symbol_name,
};
use mh_tabfile_form::{RawProduction, RawTable};

/// Returns true if the names are those of the tokens, in order.
fn are_tokens(names: &[Name], tokens: &[TokenInfo]) -> bool
    ensures { IsTrue result ↔ (names.now ≡ map (λ t. t.name) tokens.now) }
{
    names.len() == tokens.len()
        && names
            .iter()
            .zip(tokens)
            .all(|(name, token)| is_named(name, token.name.as_slice()))
}

fn are_costs(costs: &[u32], tokens: &[TokenInfo]) -> bool
    ensures { IsTrue result ↔ (costs.now ≡ costs_of tokens.now) }
{
    costs.len() == tokens.len()
        && costs
            .iter()
            .zip(tokens)
            .all(|(cost, token)| *cost == token.cost)
}

fn have_costs(grammar: &Grammar, costs: &Option<Sequence<u32>>) -> bool
    ensures { IsTrue result ↔ AreCostsOf grammar.now costs.now }
{
    match costs {
        None => true,
        Some(costs) => are_costs(costs.as_slice(), grammar.tokens.as_slice()),
    }
}

fn are_symbols(grammar: &Grammar, names: &[Name], symbols: &[Symbol]) -> bool
    ensures { IsTrue result ↔ (names.now ≡ map (name_of_symbol grammar.now) symbols.now) }
{
    names.len() == symbols.len()
        && names.iter().zip(symbols).all(|(name, symbol)| is_named(
            name,
            symbol_name(grammar, *symbol),
        ))
}

fn are_starts(grammar: &Grammar, names: &[Name], starts: &[u16]) -> bool
    ensures { IsTrue result ↔ (names.now ≡ map (name_of_nonterminal grammar.now) starts.now) }
{
    names.len() == starts.len()
        && names.iter().zip(starts).all(|(name, start)| is_named(
            name,
            nonterminal_name(grammar, *start),
        ))
}

fn is_production(grammar: &Grammar, raw: &RawProduction, production: &Production) -> bool
    ensures { IsTrue result ↔ (raw.now ≡ raw_production grammar.now production.now) }
{
    is_named(&raw.lhs, nonterminal_name(grammar, production.lhs))
        && are_symbols(grammar, raw.rhs.as_slice(), production.rhs.as_slice())
}

fn are_productions(grammar: &Grammar, raws: &[RawProduction], productions: &[Production]) -> bool
    ensures { IsTrue result ↔ (raws.now ≡ map (raw_production grammar.now) productions.now) }
{
    raws.len() == productions.len()
        && raws.iter().zip(productions).all(|(raw, production)| is_production(
            grammar, raw, production,
        ))
}

/// Returns true if the tokens, the costs, the start symbols and the productions are those of the grammar.
pub fn has_header(grammar: &Grammar, raw: &RawTable) -> bool
    ensures { IsTrue result ↔ HasHeader grammar.now raw.now }
{
    are_tokens(raw.tokens.as_slice(), grammar.tokens.as_slice())
        && have_costs(grammar, &raw.costs)
        && are_starts(grammar, raw.starts.as_slice(), grammar.starts.as_slice())
        && are_productions(
            grammar,
            raw.productions.as_slice(),
            grammar.productions.as_slice(),
        )
}
