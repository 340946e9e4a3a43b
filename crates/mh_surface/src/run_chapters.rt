//! The chapters in order. The grammar, the automaton and the table are made once, and each chapter borrows those that
//! it uses.
ghost use Rattle.mh_grammar.specs.Costs.{HaveCosts};
ghost use Rattle.mh_grammar.specs.Plain.{plain_of, IsInRange};
ghost use Rattle.mh_items.specs.Fitting.{FitsSets};

use crate::checkpoints_and_sessions::{
    checkpoints, lines_of_a_session, unknown_token, whole_session,
};
use crate::making::{automaton_of, grammar_of, is_small, table_of};
use crate::trees::{made_by_a_run, made_by_hand};
use mh_grammar::Grammar;
use mh_tables::Halting;
use mh_worked_files::ONE_SENTENCE;
use std::alloc::Global;
use std::process::Abort;
use std::test::Fail;

/// The chapters that use the table.
fn with_table(
    rt: &impl Abort,
    alloc: Global,
    grammar: &Grammar,
    table: &Halting,
) -> Result<(), Fail>
    requires { IsInRange (plain_of grammar.now) }
{
    made_by_a_run(rt, alloc, grammar, table)?;
    checkpoints(rt, alloc, table)?;
    lines_of_a_session(rt, alloc, grammar, table)?;
    whole_session(rt, alloc, grammar, table)
}

/// The table of a grammar.
fn made_table(alloc: Global, grammar: &Grammar) -> Result<Halting, Fail>
    requires fits { FitsSets 1 grammar.now }
    requires costs { HaveCosts grammar.now.tokens }
{
    let automaton = automaton_of(alloc, grammar)?;
    let table = table_of(alloc, grammar, &automaton);
    drop(automaton);
    table
}

/// The chapters that use only the grammar.
fn with_grammar(rt: &impl Abort, alloc: Global, grammar: &Grammar) -> Result<(), Fail>
    requires fits { FitsSets 1 grammar.now }
    requires costs { HaveCosts grammar.now.tokens }
{
    made_by_hand(rt, alloc, grammar)?;
    unknown_token(rt, alloc, grammar)?;
    let table = made_table(alloc, grammar)?;
    let result = with_table(rt, alloc, grammar, &table);
    drop(table);
    result
}

/// The test of the size gives the facts that the contracts require of a grammar.
fn with_any(rt: &impl Abort, alloc: Global, grammar: &Grammar) -> Result<(), Fail> {
    if !is_small(grammar) {
        return Err(Fail::from("a large grammar"));
    }
    with_grammar(rt, alloc, grammar)
}

#[test]
fn chapters(rt: HostRuntime) -> Result<(), Fail> {
    let grammar = grammar_of(rt.alloc(), ONE_SENTENCE)?;
    let result = with_any(&rt, rt.alloc(), &grammar);
    drop(grammar);
    result
}
