//! The expected tokens at a checkpoint.
ghost use Rattle.std.specs.Prelude.{◌≡◌, IfOk};
ghost use Rattle.mh_engine.specs.Phases.{phase_of, CanOffer};
ghost use Rattle.mh_engine.specs.Branches.{Branch, HasPosition};
ghost use Rattle.mh_expected.specs.Expected.{ExpectedTokens};

use crate::token_list::TokenList;
use crate::trial::tokens_shifted;
use mh_engine::Checkpoint;
use mh_grammar::Memory;
use mh_tables_core::Halting;
use std::alloc::Global;

/// Lists the tokens that the run would shift next at a checkpoint that asks for a token. For each branch with the
/// checkpoint's position, these are the tokens that are expected after the tokens of the branch. Fails only if memory
/// runs out.
pub fn expected_at(
    alloc: Global,
    table: &Halting,
    checkpoint: &Checkpoint<'_>,
) -> Result<TokenList, Memory>
    requires table { table.now ≡ checkpoint.now.table }
    requires can_offer { CanOffer (phase_of checkpoint.now) }
    ensures { IfOk result (λ list. (b : Branch) → HasPosition b checkpoint.now → ExpectedTokens table.now b.start b.offered list) }
{
    let states = checkpoint.states(alloc)?;
    tokens_shifted(alloc, table, states.as_slice())
}
