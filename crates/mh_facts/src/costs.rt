//! Sums of costs, up to the highest cost.
ghost use Rattle.std.specs.Prelude.{◌≡◌, ◌≤◌, ◌<◌, ◌+◌, min};
ghost use Rattle.mh_tables_core.specs.Table.{cost_of_token};
ghost use Rattle.mh_facts.specs.Costs.{cap};

use mh_grammar::Token;
use mh_tables_core::Table;

/// The highest cost. All words that cost more than 1,000,000 are given this cost.
pub const CAP: u32 = 1_000_001;

/// The sum of two costs, or the highest cost if the sum is greater.
pub fn add_costs(left: u32, right: u32) -> u32
    requires left { left ≤ cap }
    requires right { right ≤ cap }
    ensures { result ≡ min (left + right) cap }
{
    let sum = left + right;
    if sum < CAP { sum } else { CAP }
}

/// The cost of a word that is extended by a token, or the highest cost if the sum is greater.
#[tactic(auto, using(crate::proofs::WordCosts::token_cost_below_cap))]
pub fn add_token(table: &Table, cost: u32, token: Token) -> u32
    requires cost { cost ≤ cap }
    requires token { token < table.now.grammar.tokens }
    ensures { result ≡ min (cost + cost_of_token table.now token) cap }
{
    table.facts();
    add_costs(cost, table.token_cost(token))
}
