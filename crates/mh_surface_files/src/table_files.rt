//! Table files: written, read, and validated for a grammar.
ghost use Rattle.std.specs.Prelude.{◌<◌, ◌^◌, length, IfOk};
ghost use Rattle.mh_grammar.specs.Costs.{HaveCosts};
ghost use Rattle.mh_grammar.specs.Plain.{plain_of, IsInRange};
ghost use Rattle.mh_items_kernels.specs.Automaton.{IsAutomaton};
ghost use Rattle.mh_resolve_cells.specs.States.{IsTableOf};
ghost use Rattle.mh_resolve_cells.specs.declared.kinds.Mode.TheVariants.{Merged};
ghost use Rattle.mh_items.specs.Fitting.{FitsSets};

use crate::texts::check_written;
use mh_grammar::Grammar;
use mh_items::Automaton;
use mh_resolve::Mode;
use mh_surface::{has_counts, has_edges};
use mh_tabfile::{
    Names, RawCell, RawCells, RawEdge, RawItem, RawProduction, RawState, RawTable, TabFault,
    read_tables, write_tables,
};
use mh_tables::{Action, Fallback, Halting};
use mh_validate::{Reason, Valid, ValidFault, validate};
use mh_worked_files::ONE_SENTENCE_TABLE;
use mh_worked_grammars::are_apart;
use std::alloc::Global;
use std::process::Abort;
use std::test::Fail;

/// A table is written as a file, which can be read and validated later.
pub fn written(
    rt: &impl Abort,
    alloc: Global,
    grammar: &Grammar,
    automaton: &Automaton<1>,
    table: &Halting,
) -> Result<(), Fail>
    requires range { IsInRange (plain_of grammar.now) }
    requires automaton { IsAutomaton (plain_of grammar.now) automaton.now }
    requires table { IsTableOf grammar.now automaton.now Merged table.now }
{
    let text = write_tables(alloc, grammar, automaton, table.table(), Mode::Merged)?;
    check_written(rt, text, ONE_SENTENCE_TABLE);
    Ok(())
}

/// The content of a table file.
fn raw_of(alloc: Global, text: &str) -> Result<RawTable, Fail>
    ensures { IfOk result (λ raw. length raw.states < 2 ^ 32) }
{
    if text.len() > 1_000_000 {
        return Err(Fail::from("a long file"));
    }
    match read_tables(alloc, text.as_bytes()) {
        Ok(raw) if raw.states.len() < 1_000_000 => Ok(raw),
        Ok(_) => Err(Fail::from("many states")),
        Err(TabFault::Version) => Err(Fail::from("another version")),
        Err(TabFault::TabShape { line: _ }) => Err(Fail::from("another form")),
        Err(TabFault::Memory) => Err(Fail::from("no memory")),
    }
}

/// The looks of an item: the end of the stream alone.
fn check_looks(rt: &impl Abort, alloc: Global, looks: &Names) -> Result<(), Fail> {
    let stream = Names::from_words(alloc, &[b"#"])?;
    let is_same = looks.is_same(&stream);
    drop(stream);
    assert!(rt; is_same);
    if looks.len() != 1 {
        return Err(Fail::from("no look"));
    }
    assert!(rt; looks.at(0) == b"#".as_slice());
    Ok(())
}

/// The content of the file for state 0: one item, two edges, and the cell of the token `A`.
fn check_first_state(rt: &impl Abort, alloc: Global, state: &RawState) -> Result<(), Fail> {
    let item: &RawItem = state.items.get(0).ok_or("no item")?;
    check_looks(rt, alloc, &item.looks)?;
    let edge: &RawEdge = state.edges.get(0).ok_or("no edge")?;
    assert!(rt; (item.production, item.dot) == (0, 0) && edge.symbol.as_slice() == b"A".as_slice());
    let RawCells::Cells(cells) = &state.cells else {
        return Err(Fail::from("a default action"));
    };
    let cell: &RawCell = cells.get(0).ok_or("no cell")?;
    assert!(rt; cells.len() == 1 && cell.action == Action::Shift(1));
    Ok(())
}

/// The content of the file: the production `s -> A EOF`, and state 3, which has no cells, but a default action.
fn check_raw(rt: &impl Abort, alloc: Global, raw: &RawTable) -> Result<(), Fail> {
    assert!(rt; raw.mode == Mode::Merged && raw.tokens.len() == 2 && raw.productions.len() == 1);
    let production: &RawProduction = raw.productions.get(0).ok_or("no production")?;
    assert!(rt; production.rhs.len() == 2);
    check_first_state(rt, alloc, raw.states.get(0).ok_or("no state 0")?)?;
    let last: &RawState = raw.states.get(3).ok_or("no state 3")?;
    let reduces = match last.cells {
        RawCells::Fallback(fallback) => fallback == Fallback::Reduce(1),
        RawCells::Cells(_) => false,
    };
    assert!(rt; reduces && last.items.len() == 1 && last.edges.is_empty());
    Ok(())
}

/// Returns true if a valid file gives the automaton and the table, without conflicts.
fn is_expected(valid: &Valid<1>) -> bool {
    let is_whole = has_edges(&valid.automaton) && has_counts(&valid.table);
    is_whole && valid.conflicts.is_empty() && valid.mode == Mode::Merged
}

/// A file is validated for the grammar. A valid file gives the automaton, the table and the conflicts.
fn check_valid(
    rt: &impl Abort,
    alloc: Global,
    grammar: &Grammar,
    raw: &RawTable,
) -> Result<(), Fail>
    requires fits { FitsSets 1 grammar.now }
    requires costs { HaveCosts grammar.now.tokens }
    requires small { length raw.now.states < 2 ^ 32 }
{
    if !are_apart(grammar) {
        return Err(Fail::from("two tokens of one name"));
    }
    let Ok(valid) = validate::<1>(alloc, grammar, raw) else {
        return Err(Fail::from("an invalid file"));
    };
    let is_expected = is_expected(&valid);
    drop(valid);
    assert!(rt; is_expected);
    Ok(())
}

/// A file in which the edge of state 0 on `A` leads to another state is not valid.
fn check_invalid(
    rt: &impl Abort,
    alloc: Global,
    grammar: &Grammar,
    raw: &RawTable,
) -> Result<(), Fail>
    requires fits { FitsSets 1 grammar.now }
    requires costs { HaveCosts grammar.now.tokens }
    requires small { length raw.now.states < 2 ^ 32 }
{
    if !are_apart(grammar) {
        return Err(Fail::from("two tokens of one name"));
    }
    match validate::<1>(alloc, grammar, raw) {
        Ok(valid) => {
            drop(valid);
            Err(Fail::from("a valid file"))
        }
        Err(ValidFault::Invalid { state, reason }) => {
            assert!(rt; state == Some(0) && reason == Reason::Edge);
            Ok(())
        }
        Err(ValidFault::Memory) => Err(Fail::from("no memory")),
    }
}

/// Table files that are read and validated for the grammar.
pub fn read_and_tested(rt: &impl Abort, alloc: Global, grammar: &Grammar) -> Result<(), Fail>
    requires fits { FitsSets 1 grammar.now }
    requires costs { HaveCosts grammar.now.tokens }
{
    let raw = raw_of(alloc, ONE_SENTENCE_TABLE)?;
    let result = check_file(rt, alloc, grammar, &raw);
    drop(raw);
    result?;
    let changed = ONE_SENTENCE_TABLE.replace(alloc, "edge A 1", "edge A 3")?;
    let raw = raw_of(alloc, &changed);
    drop(changed);
    let raw = raw?;
    let result = check_invalid(rt, alloc, grammar, &raw);
    drop(raw);
    result
}

fn check_file(rt: &impl Abort, alloc: Global, grammar: &Grammar, raw: &RawTable) -> Result<(), Fail>
    requires fits { FitsSets 1 grammar.now }
    requires costs { HaveCosts grammar.now.tokens }
    requires small { length raw.now.states < 2 ^ 32 }
{
    check_raw(rt, alloc, raw)?;
    check_valid(rt, alloc, grammar, raw)
}
