//! The chapters in order. The grammar, the automaton and the table are made once, and each chapter borrows those that
//! it uses.
ghost use Rattle.mh_grammar.specs.Costs.{HaveCosts};
ghost use Rattle.mh_grammar.specs.Plain.{plain_of};
ghost use Rattle.mh_items_kernels.specs.Automaton.{IsAutomaton};
ghost use Rattle.mh_items.specs.Fitting.{FitsSets};

use crate::automata_and_tables::{automata, cells, items};
use crate::from_text_to_verdict::{traces, verdicts};
use crate::making::{automaton_of, grammar_of, is_small, table_of};
use mh_grammar::Grammar;
use mh_items::Automaton;
use mh_tables::Halting;
use mh_worked_files::ONE_SENTENCE;
use std::alloc::Global;
use std::process::Abort;
use std::test::Fail;

/// The chapters that use the table.
fn with_table(rt: &impl Abort, alloc: Global, table: &Halting) -> Result<(), Fail> {
    cells(rt, table)?;
    verdicts(rt, alloc, table)?;
    traces(rt, alloc, table)
}

/// The chapters that use the automaton.
fn with_automaton(
    rt: &impl Abort,
    alloc: Global,
    grammar: &Grammar,
    automaton: &Automaton<1>,
) -> Result<(), Fail>
    requires fits { FitsSets 1 grammar.now }
    requires costs { HaveCosts grammar.now.tokens }
    requires automaton { IsAutomaton (plain_of grammar.now) automaton.now }
{
    automata(rt, alloc, grammar, automaton)?;
    let table = table_of(alloc, grammar, automaton)?;
    let result = with_table(rt, alloc, &table);
    drop(table);
    result
}

/// The chapters that use only the grammar.
fn with_grammar(rt: &impl Abort, alloc: Global, grammar: &Grammar) -> Result<(), Fail>
    requires fits { FitsSets 1 grammar.now }
    requires costs { HaveCosts grammar.now.tokens }
{
    items(rt, alloc, grammar)?;
    let automaton = automaton_of(alloc, grammar)?;
    let result = with_automaton(rt, alloc, grammar, &automaton);
    drop(automaton);
    result
}

/// The test of the size gives the facts that the contracts require of a grammar.
fn with_any(rt: &impl Abort, alloc: Global, grammar: &Grammar) -> Result<(), Fail> {
    if !is_small(grammar) {
        return Err(Fail::from("a large grammar"));
    }
    with_grammar(rt, alloc, grammar)
}

#[test]
fn chapters(rt: HostRuntime) -> Result<(), Fail> {
    let grammar = grammar_of(rt.alloc(), ONE_SENTENCE)?;
    let result = with_any(&rt, rt.alloc(), &grammar);
    drop(grammar);
    result
}
