//! The expected tokens after a sentence.
ghost use Rattle.std.specs.Prelude.{◌<◌, length, IfOk, All};
ghost use Rattle.mh_tables_core.specs.Run.{IsRunStack};
ghost use Rattle.mh_tables_core.specs.Sentences.{FitsTable};
ghost use Rattle.mh_expected.specs.Expected.{ExpectedTokens, Overshoots};
ghost use Rattle.mh_expected.specs.code.Trials.{AsksOn};

use crate::overlay::Overlay;
use crate::settle::settle;
use crate::token_list::TokenList;
use crate::trial::tokens_shifted;
use mh_grammar::{Memory, Token};
use mh_tables_core::{Halting, NextAction};
use std::alloc::Global;

/// Lists the tokens that are expected after a sentence of fewer than 2^32 tokens. The run of the start, given by its
/// number, on the sentence must overshoot. Fails only if memory runs out.
pub fn expected(
    alloc: Global,
    table: &Halting,
    start: u16,
    sentence: &[Token],
) -> Result<TokenList, Memory>
    requires fits { FitsTable table.now start sentence.now }
    requires overshoots { Overshoots table.now start sentence.now }
    ensures { IfOk result (λ list. ExpectedTokens table.now start sentence.now list) }
{
    let states = states_after(alloc, table, start, sentence)?;
    tokens_shifted(alloc, table, states.as_slice())
}

/// Returns the stack on which the run of a start on a sentence asks for one more token. The run must overshoot.
fn states_after(
    alloc: Global,
    table: &Halting,
    start: u16,
    sentence: &[Token],
) -> Result<Vec<u32>, Memory>
    requires start { start < length table.now.grammar.starts }
    requires tokens { All (λ z. z < table.now.grammar.tokens) sentence.now }
    requires overshoots { Overshoots table.now start sentence.now }
    ensures asks { IfOk result (λ states. AsksOn table.now start sentence.now states.items) }
    ensures run { IfOk result (λ states. IsRunStack table.now states.items) }
{
    let _rows = table.table();
    let mut stack = Overlay::on(alloc, &[]);
    stack.push(u32::from(start))?;
    for token in sentence {
        match settle(table, &mut stack, Some(*token))? {
            NextAction::Shift(target) => stack.push(target)?,
            _ => unreachable!(),
        }
    }
    let _asks = settle(table, &mut stack, None)?;
    Ok(stack.into_above())
}
