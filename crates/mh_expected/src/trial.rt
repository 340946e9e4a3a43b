//! Tests which tokens the run on a stack shifts.
ghost use Rattle.std.specs.Prelude.{◌≡◌, ◌<◌, IfOk};
ghost use Rattle.mh_tables_core.specs.Run.{IsRunStack};
ghost use Rattle.mh_expected.specs.code.Trials.{IsTried, AreTried};

use crate::overlay::Overlay;
use crate::settle::settle;
use crate::token_list::TokenList;
use mh_grammar::{Memory, Token};
use mh_tables_core::{Halting, NextAction};
use std::alloc::Global;

/// True if the run on the shared stack shifts this token, at once or after reductions.
fn is_shifted(table: &Halting, stack: &mut Overlay<'_>, token: Token) -> Result<bool, Memory>
    requires run { IsRunStack table.now stack.old.base }
    requires token { token < table.now.grammar.tokens }
    ensures base { stack.new.base ≡ stack.old.base }
    ensures tried { IfOk result (λ shifted. IsTried table.now stack.old.base token shifted) }
{
    stack.restart();
    match settle(table, stack, Some(token))? {
        NextAction::Shift(_) => Ok(true),
        _ => Ok(false),
    }
}

/// Lists the tokens that the run on this stack shifts, in rising order.
pub(crate) fn tokens_shifted(
    alloc: Global,
    table: &Halting,
    states: &[u32],
) -> Result<TokenList, Memory>
    requires { IsRunStack table.now states.now }
    ensures { IfOk result (λ list. AreTried table.now states.now list table.now.grammar.tokens) }
{
    let mut shifted = Vec::new(alloc);
    let mut stack = Overlay::on(alloc, states);
    for token in 0..table.table().tokens() {
        if is_shifted(table, &mut stack, token)? {
            shifted.push(token)?;
        }
    }
    Ok(TokenList::from_vec(shifted))
}
