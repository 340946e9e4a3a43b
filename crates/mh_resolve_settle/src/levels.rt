//! Precedence levels, and the comparison of a reduction with a shift.
ghost use Rattle.std.specs.Prelude.{◌≡◌, length};
ghost use Rattle.mh_grammar.specs.Plain.{plain_of, rhs_of};
ghost use Rattle.mh_resolve_cells.specs.Precedence.{production_level, look_level, comparison, comparison_on, error_rank};

use mh_grammar::{Assoc, Grammar, Level, Look};
use mh_resolve_cells::Comparison;

#[tactic(auto, unfolding(mh_resolve_cells::specs::Precedence::production_level))]
fn level_of_production(grammar: &Grammar, production: u32) -> Option<Level>
    ensures { result ≡ production_level grammar.now production }
{
    let production = production as usize;
    let starts = grammar.starts.len();
    if production < starts {
        return None;
    }
    match grammar.productions.get(production - starts) {
        Some(found) => found.level,
        None => None,
    }
}

fn level_of_look(grammar: &Grammar, look: Look) -> Option<Level>
    ensures { result ≡ look_level grammar.now look }
{
    match look {
        Look::Token(token) => match grammar.tokens.get(token as usize) {
            Some(found) => found.level,
            None => None,
        },
        Look::End => None,
    }
}

/// The comparison of reducing a production of the first level with shifting a token of the second.
fn compare(production: Option<Level>, token: Option<Level>) -> Comparison
    ensures { result ≡ comparison production token }
{
    match (production, token) {
        (Some(p), Some(t)) => {
            if p.file != t.file {
                Comparison::Unknown
            } else if t.rank < p.rank {
                Comparison::Reduces
            } else if p.rank < t.rank {
                Comparison::Shifts
            } else {
                match t.assoc {
                    Assoc::Left => Comparison::Reduces,
                    Assoc::Right => Comparison::Shifts,
                    Assoc::Nonassoc => Comparison::Neither,
                }
            }
        }
        _ => Comparison::Unknown,
    }
}

/// The comparison of reducing a production with shifting a look.
pub fn compare_on(grammar: &Grammar, look: Look, production: u32) -> Comparison
    ensures { result ≡ comparison_on grammar.now look production }
{
    compare(
        level_of_production(grammar, production),
        level_of_look(grammar, look),
    )
}

/// The rank of a production for `%on_error_reduce`, if a declaration names its left side.
#[tactic(auto, unfolding(mh_resolve_cells::specs::Precedence::error_rank))]
pub fn rank_of(grammar: &Grammar, production: u32) -> Option<u64>
    ensures { result ≡ error_rank grammar.now production }
{
    let production = production as usize;
    let starts = grammar.starts.len();
    if production < starts {
        return None;
    }
    match grammar.productions.get(production - starts) {
        Some(found) => match grammar.nonterminals.get(found.lhs as usize) {
            Some(info) => info.on_error,
            None => None,
        },
        None => None,
    }
}

/// The length of a production's right side; 1 for a start production.
#[tactic(auto, unfolding(mh_grammar::specs::Plain::rhs_of))]
pub fn length_of(grammar: &Grammar, production: u32) -> usize
    ensures { result ≡ length (rhs_of (plain_of grammar.now) production) }
{
    let production = production as usize;
    let starts = grammar.starts.len();
    if production < starts {
        return 1;
    }
    match grammar.productions.get(production - starts) {
        Some(found) => found.rhs.len(),
        None => 0,
    }
}
