//! Runs on sentences.
ghost use Rattle.std.specs.Prelude.{◌≡◌, ◌<◌, ◌^◌, length, IfOk};
ghost use Rattle.mh_tables_core.specs.Run.{VerdictOf, Overshot, Rejected, top_of};
ghost use Rattle.mh_tables_core.specs.Sentences.{FitsTable};
ghost use Rattle.mh_run.specs.code.Observers.{RunsObserved};
ghost use Rattle.mh_run.specs.Verdicts.{ending_for};

use crate::observer::{NoObserver, RunObserver};
use crate::outcome::Verdict;
use crate::reductions::settle;
use mh_grammar::{Memory, Token};
use mh_tables_core::{Halting, NextAction};
use std::alloc::Global;

/// The verdict on a sentence of fewer than 2^32 tokens from the start symbol with this number. Fails only if memory
/// runs out.
pub fn verdict(
    alloc: Global,
    table: &Halting,
    start: u16,
    sentence: &[Token],
) -> Result<Verdict, Memory>
    requires { FitsTable table.now start sentence.now }
    ensures { IfOk result (λ verdict. VerdictOf table.now start sentence.now (ending_for verdict)) }
{
    let verdict = run(alloc, table, start, sentence, &mut NoObserver)?;
    Ok(verdict)
}

/// The verdict if the top state of the stack refuses the token with index `at`.
fn refused(stack: &[u32], at: usize) -> Verdict
    requires some { 0 < length stack.now }
    requires few { at < 2 ^ 32 }
    ensures { ending_for result ≡ Rejected at (top_of stack.now) }
{
    Verdict::Reject {
        at: at as u32,
        state: stack[stack.len() - 1],
    }
}

/// The verdict if the top state of the stack needs another token and none is left.
fn overshot(stack: &[u32]) -> Verdict
    requires { 0 < length stack.now }
    ensures { ending_for result ≡ Overshot (top_of stack.now) }
{
    Verdict::Overshoot {
        state: stack[stack.len() - 1],
    }
}

/// Runs the table on a sentence from a start symbol, and updates an observer at each step.
pub(crate) fn run<F: RunObserver>(
    alloc: Global,
    table: &Halting,
    start: u16,
    sentence: &[Token],
    follower: &mut F,
) -> Result<Verdict, Memory>
    requires { FitsTable table.now start sentence.now }
    ensures { IfOk result (λ verdict. RunsObserved F.following table.now start sentence.now follower.old (ending_for verdict) follower.new) }
{
    let _rows = table.table();
    let mut stack: Vec<u32> = Vec::new(alloc);
    stack.push(u32::from(start))?;
    for (at, token) in sentence.iter().enumerate() {
        match settle(table, &mut stack, Some(*token), follower)? {
            NextAction::Shift(target) => {
                follower.shift(*token)?;
                stack.push(target)?;
            }
            NextAction::Accept => return Ok(Verdict::Accept { read: at as u32 }),
            NextAction::Refuse => return Ok(refused(stack.as_slice(), at)),
            NextAction::Ask => unreachable!(),
            NextAction::Reduce(_) => unreachable!(),
        }
    }
    match settle(table, &mut stack, None, follower)? {
        NextAction::Accept => Ok(Verdict::Accept {
            read: sentence.len() as u32,
        }),
        NextAction::Ask => Ok(overshot(stack.as_slice())),
        NextAction::Refuse => unreachable!(),
        NextAction::Shift(_) => unreachable!(),
        NextAction::Reduce(_) => unreachable!(),
    }
}
