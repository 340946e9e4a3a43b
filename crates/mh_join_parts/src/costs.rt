//! The costs of the tokens of all files.
ghost use Rattle.std.specs.Prelude.{◌≡◌, OnOk};
ghost use Rattle.std.specs.List.{flat_map};
ghost use Rattle.std.specs.HashMap.{get, IsEmpty};
ghost use Rattle.mh_grammar.specs.Text.{Text};
ghost use Rattle.mh_join_names.specs.Names.{same, cost_of, given_cost};
ghost use Rattle.mh_join_names.specs.code.Insertions.{InsertsNew};

use mh_grammar::Memory;
use mh_join_names::{Costs, put_first};
use mh_rules::{Module, TokenDecl};

/// Records the cost of a token, if its declaration gives one. The first cost of a name counts. Fails only if memory
/// runs out.
fn add_cost(costs: &mut Costs, token: &TokenDecl) -> Result<(), Memory>
    ensures { OnOk result (InsertsNew costs.old (given_cost token.now) costs.new) }
{
    if let Some(cost) = token.cost {
        put_first(costs, &token.name, cost)?;
    }
    Ok(())
}

fn add_costs(costs: &mut Costs, tokens: &[TokenDecl]) -> Result<(), Memory>
    ensures { OnOk result (InsertsNew costs.old (flat_map given_cost tokens.now) costs.new) }
{
    for token in tokens {
        add_cost(costs, token)?;
    }
    Ok(())
}

pub(crate) fn put_costs(costs: &mut Costs, files: &[Module]) -> Result<(), Memory>
    requires { IsEmpty costs.old }
    ensures { OnOk result ((x : Text) → get same costs.new x ≡ cost_of files.now x) }
{
    for file in files {
        add_costs(costs, file.tokens.as_slice())?;
    }
    Ok(())
}
