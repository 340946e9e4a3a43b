//! The chapters in order. The grammar, the automaton and the table are made once, and each chapter borrows those that
//! it uses.
ghost use Rattle.mh_grammar.specs.Costs.{HaveCosts};
ghost use Rattle.mh_grammar.specs.Plain.{plain_of, IsInRange};
ghost use Rattle.mh_items_kernels.specs.Automaton.{IsAutomaton};
ghost use Rattle.mh_resolve_cells.specs.States.{IsTableOf};
ghost use Rattle.mh_resolve_cells.specs.declared.kinds.Mode.TheVariants.{Merged};
ghost use Rattle.mh_items.specs.Fitting.{FitsSets};

use crate::catalogue_and_messages::{
    compiled, messages_files, refused, rows, search, sentence_lines,
};
use crate::table_files::{read_and_tested, written};
use crate::texts::{automaton_as_text, warnings};
use mh_grammar::Grammar;
use mh_items::Automaton;
use mh_surface::{automaton_of, grammar_of, is_small, table_of};
use mh_tables::Halting;
use mh_worked_files::ONE_SENTENCE;
use std::alloc::Global;
use std::process::Abort;
use std::test::Fail;

/// The chapters that use the table.
fn with_table(
    rt: &impl Abort,
    alloc: Global,
    grammar: &Grammar,
    automaton: &Automaton<1>,
    table: &Halting,
) -> Result<(), Fail>
    requires range { IsInRange (plain_of grammar.now) }
    requires automaton { IsAutomaton (plain_of grammar.now) automaton.now }
    requires table { IsTableOf grammar.now automaton.now Merged table.now }
{
    search(rt, alloc, grammar, automaton, table)?;
    rows(rt, alloc, table)?;
    messages_files(rt, alloc, grammar, automaton, table)?;
    compiled(rt, alloc, grammar, table)?;
    refused(rt, alloc, grammar, table)?;
    automaton_as_text(rt, alloc, grammar, automaton, table)?;
    written(rt, alloc, grammar, automaton, table)
}

/// The chapters that use the automaton.
fn with_automaton(
    rt: &impl Abort,
    alloc: Global,
    grammar: &Grammar,
    automaton: &Automaton<1>,
) -> Result<(), Fail>
    requires fits { FitsSets 1 grammar.now }
    requires costs { HaveCosts grammar.now.tokens }
    requires automaton { IsAutomaton (plain_of grammar.now) automaton.now }
{
    let table = table_of(alloc, grammar, automaton)?;
    let result = with_table(rt, alloc, grammar, automaton, &table);
    drop(table);
    result
}

/// The chapters that use only the grammar.
fn with_grammar(rt: &impl Abort, alloc: Global, grammar: &Grammar) -> Result<(), Fail>
    requires fits { FitsSets 1 grammar.now }
    requires costs { HaveCosts grammar.now.tokens }
{
    sentence_lines(rt, alloc, grammar)?;
    warnings(rt, alloc, grammar)?;
    read_and_tested(rt, alloc, grammar)?;
    let automaton = automaton_of(alloc, grammar)?;
    let result = with_automaton(rt, alloc, grammar, &automaton);
    drop(automaton);
    result
}

/// The test of the size gives the facts that the contracts require of a grammar.
fn with_any(rt: &impl Abort, alloc: Global, grammar: &Grammar) -> Result<(), Fail> {
    if !is_small(grammar) {
        return Err(Fail::from("a large grammar"));
    }
    with_grammar(rt, alloc, grammar)
}

#[test]
fn chapters(rt: HostRuntime) -> Result<(), Fail> {
    let grammar = grammar_of(rt.alloc(), ONE_SENTENCE)?;
    let result = with_any(&rt, rt.alloc(), &grammar);
    drop(grammar);
    result
}
