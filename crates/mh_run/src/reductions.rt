//! The reductions between two shifts of a run.
ghost use Rattle.std.specs.Prelude.{◌≡◌, length, IfOk, OnOk, Some};
ghost use Rattle.mh_grammar.specs.Plain.{rhs_of};
ghost use Rattle.mh_tables_core.specs.Table.{TableData};
ghost use Rattle.mh_tables_core.specs.Run.{run_move_of, top_of, reduce, IsRunStack, Reduces};
ghost use Rattle.mh_tables_core.specs.Halting.{IsLook, look_list};
ghost use Rattle.mh_tables_core.specs.NextActions.{move_for};
ghost use Rattle.mh_run.specs.code.Reductions.{CanReduce, SettlesTo};

use crate::observer::RunObserver;
use mh_grammar::{Memory, Token};
use mh_tables_core::{Halting, NextAction, Table, choose};
use std::alloc::AllocError;

/// Reduces a production: pops the states of its right side and pushes the target of the goto on its left side.
fn reduce_on(table: &Table, stack: &mut Vec<u32>, production: u32) -> Result<(), AllocError>
    requires { CanReduce table.now production stack.old.items }
    ensures ok { OnOk result (reduce table.now production stack.old.items ≡ Some stack.new.items) }
{
    let kept = stack.len() - table.length_of(production) as usize;
    stack.truncate(kept);
    match table.goto(stack[kept - 1], table.lhs_of(production)) {
        Some(target) => {
            stack.push(target)?;
            Ok(())
        }
        None => unreachable!(),
    }
}

/// The next move.
fn next_choice(table: &Halting, stack: &[u32], look: Option<Token>) -> NextAction
    requires run { IsRunStack table.now stack.now }
    requires look { IsLook table.now look }
    ensures { move_for result ≡ run_move_of table.now (top_of stack.now) (look_list look) }
{
    choose(table.table(), stack[stack.len() - 1], look)
}

/// Makes the next reduction.
fn reduce_next(
    table: &Halting,
    stack: &mut Vec<u32>,
    look: Option<Token>,
    production: u32,
) -> Result<(), AllocError>
    requires run { IsRunStack table.now stack.old.items }
    requires next { run_move_of table.now (top_of stack.old.items) (look_list look) ≡ Reduces production }
    ensures ok { OnOk result (reduce table.now production stack.old.items ≡ Some stack.new.items) }
{
    reduce_on(table.table(), stack, production)
}

/// Updates the observer for the next reduction.
fn observe_next<F: RunObserver>(
    table: &Halting,
    stack: &[u32],
    look: Option<Token>,
    production: u32,
    follower: &mut F,
) -> Result<(), Memory>
    requires run { IsRunStack table.now stack.now }
    requires next { run_move_of table.now (top_of stack.now) (look_list look) ≡ Reduces production }
    ensures { OnOk result (follower.new ≡ F.following.reduced follower.old (length (rhs_of table.now.grammar production)) production) }
{
    let rows = table.table();
    follower.reduce(rows.length_of(production) as usize, production)
}

/// Makes all reductions up to the next other move, updates the observer for each of them, and returns that move.
pub(crate) fn settle<F: RunObserver>(
    table: &Halting,
    stack: &mut Vec<u32>,
    look: Option<Token>,
    follower: &mut F,
) -> Result<NextAction, Memory>
    requires run { IsRunStack table.now stack.old.items }
    requires look { IsLook table.now look }
    ensures { IfOk result (λ choice. SettlesTo F.following table.now look stack.old.items stack.new.items follower.old follower.new (move_for choice)) }
{
    let _rows = table.table();
    // The loop terminates: each reduction either keeps the state at index `floor` on the stack, which at most
    // `MAX_REDUCTIONS` reductions in a row do, or makes `floor` smaller. `count` is only needed for this proof.
    let mut floor = stack.len().saturating_sub(2);
    let mut count: u32 = 0;
    'reductions: loop {
        match next_choice(table, stack, look) {
            NextAction::Reduce(production) => {
                observe_next(table, stack, look, production, follower)?;
                reduce_next(table, stack, look, production)?;
                if floor + 1 < stack.len() {
                    count += 1;
                } else {
                    floor = stack.len().saturating_sub(2);
                    count = 0;
                }
            }
            settled => return Ok(settled),
        }
    }
}
