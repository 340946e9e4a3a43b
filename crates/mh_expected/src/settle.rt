//! The reductions of a run before its next token.
ghost use Rattle.std.specs.Prelude.{◌≡◌, length, IfOk, OnOk, Some};
ghost use Rattle.mh_tables_core.specs.Run.{reduce, IsRunStack};
ghost use Rattle.mh_tables_core.specs.Halting.{IsLook};
ghost use Rattle.mh_tables_core.specs.NextActions.{move_for};
ghost use Rattle.mh_run.specs.code.Reductions.{CanReduce};
ghost use Rattle.mh_expected.specs.code.Trials.{Settles};

use crate::overlay::Overlay;
use mh_grammar::{Memory, Token};
use mh_tables_core::{Halting, NextAction, Table, choose};

/// Reduces a production: takes the states of the right side off, and pushes the goto on the left side.
fn reduce(table: &Table, stack: &mut Overlay<'_>, production: u32) -> Result<(), Memory>
    requires { CanReduce table.now production stack.old.stack }
    ensures base { stack.new.base ≡ stack.old.base }
    ensures ok { OnOk result (reduce table.now production stack.old.stack ≡ Some stack.new.stack) }
{
    stack.truncate(stack.len() - table.length_of(production) as usize);
    match table.goto(stack.top(), table.lhs_of(production)) {
        Some(target) => stack.push(target),
        None => unreachable!(),
    }
}

/// Makes the reductions before the next token, and returns the choice after them. `look` is the next token; at the end
/// of the sentence there is none.
pub(crate) fn settle(
    table: &Halting,
    stack: &mut Overlay<'_>,
    look: Option<Token>,
) -> Result<NextAction, Memory>
    requires run { IsRunStack table.now stack.old.stack }
    requires look { IsLook table.now look }
    ensures base { stack.new.base ≡ stack.old.base }
    ensures settled { IfOk result (λ choice. Settles table.now look stack.old.stack stack.new.stack (move_for choice)) }
{
    let _rows = table.table();
    // The loop ends: a reduction that removes the state at index `floor` lowers `floor`, and at most `MAX_REDUCTIONS`
    // reductions in a row keep this state. `count` serves this proof alone.
    let mut floor = stack.len().saturating_sub(2);
    let mut count: u32 = 0;
    'reductions: loop {
        match choose(table.table(), stack.top(), look) {
            NextAction::Reduce(production) => {
                reduce(table.table(), stack, production)?;
                let depth = stack.len().saturating_sub(1);
                if floor < depth {
                    count += 1;
                } else {
                    floor = stack.len().saturating_sub(2);
                    count = 0;
                }
            }
            settled => return Ok(settled),
        }
    }
}
