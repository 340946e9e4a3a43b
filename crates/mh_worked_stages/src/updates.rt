//! Messages files that are maintained while a grammar grows, worked out by hand: the updated files, and the states that
//! one file has and another lacks.
ghost use Rattle.std.specs.Prelude.{◌≡◌, ◌≤◌, length, IfOk};
ghost use Rattle.mh_grammar.specs.Costs.{HaveCosts};
ghost use Rattle.mh_grammar.specs.Plain.{plain_of, IsInRange};
ghost use Rattle.mh_items_kernels.specs.Automaton.{IsAutomaton};
ghost use Rattle.mh_resolve_cells.specs.States.{IsTableOf};
ghost use Rattle.mh_resolve_cells.specs.declared.kinds.Mode.TheVariants.{Canonical};
ghost use Rattle.mh_items.specs.Fitting.{FitsSets};

use mh_check::{CheckFault, Compiled, compare, compile};
use mh_grammar::Grammar;
use mh_items_kernels::Automaton;
use mh_msgfile::read_messages;
use mh_run::Verdict;
use mh_tables_core::Halting;
use mh_update::update;
use mh_worked_grammars::{automaton_of, check, grammar_of, is_small, put, put_bytes, table_of};
use std::alloc::Global;
use std::fmt::Write;
use std::test::Fail;

/// A grammar with one sentence.
const PAIR: &str = "A EOF; s; s: A EOF";

/// Messages files, with `~` before the updated file and `^` between cases.
const FILES: &str = "~^\
     s: EOF\n## old\n\nM\n~\
     s: EOF\n##\n## Ends in an error in state: 0.\n##\n## s' -> . s [ # ]\n##\n\
     ## The known suffix of the stack is as follows:\n##\n##\n\nM\n^\
     A EOF\n\nM\n~not refused 1: ACCEPT^\
     A\n\nM\n~not refused 1: OVERSHOOT^\
     A A\n\nM\n\nEOF A\n\nN\n~early 5: 0^\
     # kept\n## old\nA A\r\n#too\n##\n\n  M \n## old\n## old\n\n\nEOF\n\nN~\
     # kept\nA A\n##\n## Ends in an error in state: 1.\n##\n## s -> A . EOF [ # ]\n##\n\
     ## The known suffix of the stack is as follows:\n## A\n##\n#too\n\n  M \n\n\nEOF\n##\n\
     ## Ends in an error in state: 0.\n##\n## s' -> . s [ # ]\n##\n\
     ## The known suffix of the stack is as follows:\n##\n##\n\nN\n^\
     s: EOF\n\nM\n\nEOF\n\nN\n~\
     s: EOF\n##\n## Ends in an error in state: 0.\n##\n## s' -> . s [ # ]\n##\n\
     ## The known suffix of the stack is as follows:\n##\n##\n\nM\n\nEOF\n##\n\
     ## Ends in an error in state: 0.\n##\n## s' -> . s [ # ]\n##\n\
     ## The known suffix of the stack is as follows:\n##\n##\n\nN\n";

/// Two messages files, the number of states for which the first has a message and the second has none, and the first of
/// these states.
const PAIRS: &str = "EOF\n\nM\n\nA A\n\nN\n~EOF\n\nM\n~1 Some(1)^\
     EOF\n\nM\n~EOF\n\nM\n\nA A\n\nN\n~0 None";

fn verdict_name(verdict: Verdict) -> &'static str {
    match verdict {
        Verdict::Accept { .. } => "ACCEPT",
        Verdict::Overshoot { .. } => "OVERSHOOT",
        Verdict::Reject { .. } => "REJECT",
    }
}

/// Appends the fault of a messages file that does not fit the table.
fn put_fault(text: &mut String, fault: &CheckFault) {
    match fault {
        CheckFault::NotRefused { line, verdict } => {
            let _ = write!(text, "not refused {line}: {}", verdict_name(*verdict));
        }
        CheckFault::RefusedEarly { line, at } => {
            let _ = write!(text, "early {line}: {at}");
        }
        CheckFault::SharedState { .. } => put(text, "shared"),
        CheckFault::Memory => put(text, "no memory"),
    }
}

/// Appends the updated file of these bytes.
fn put_updated(
    alloc: Global,
    text: &mut String,
    grammar: &Grammar,
    automaton: &Automaton<1>,
    table: &Halting,
    bytes: &[u8],
) -> Result<(), Fail>
    requires range { IsInRange (plain_of grammar.now) }
    requires automaton { IsAutomaton (plain_of grammar.now) automaton.now }
    requires table { IsTableOf grammar.now automaton.now Canonical table.now }
    requires short { length bytes.now ≤ 1000 }
{
    let Ok(file) = read_messages(alloc, bytes, grammar) else {
        return Err(Fail::from("no messages file"));
    };
    match update(alloc, grammar, automaton, table, &file, false) {
        Ok(updated) => {
            put_bytes(text, &updated);
            drop(updated);
        }
        Err(fault) => {
            put_fault(text, &fault);
            drop(fault);
        }
    }
    drop(file);
    Ok(())
}

/// The compiled messages of a file for a table of this grammar.
fn compiled(
    alloc: Global,
    grammar: &Grammar,
    table: &Halting,
    bytes: &[u8],
) -> Result<Compiled, Fail>
    requires range { IsInRange (plain_of grammar.now) }
    requires same { table.now.grammar ≡ plain_of grammar.now }
    requires short { length bytes.now ≤ 1000 }
{
    let Ok(file) = read_messages(alloc, bytes, grammar) else {
        return Err(Fail::from("no messages file"));
    };
    let compiled = compile(alloc, table, &file);
    drop(file);
    match compiled {
        Ok(compiled) => Ok(compiled),
        Err(_) => Err(Fail::from("it does not fit")),
    }
}

/// Appends the number of states for which the first file has a message and the second has none, and the first of these
/// states.
fn put_missing(
    alloc: Global,
    text: &mut String,
    left: &Compiled,
    right: &Compiled,
) -> Result<(), Fail> {
    let states = compare(alloc, left, right)?;
    let _ = write!(text, "{} {:?}", states.len(), states.first());
    drop(states);
    Ok(())
}

fn put_against(
    alloc: Global,
    text: &mut String,
    grammar: &Grammar,
    table: &Halting,
    left: &Compiled,
    right: &[u8],
) -> Result<(), Fail>
    requires range { IsInRange (plain_of grammar.now) }
    requires same { table.now.grammar ≡ plain_of grammar.now }
    requires short { length right.now ≤ 1000 }
{
    let right = compiled(alloc, grammar, table, right)?;
    let result = put_missing(alloc, text, left, &right);
    drop(right);
    result
}

/// Appends the states that the second of two files lacks.
fn put_lacked(
    alloc: Global,
    text: &mut String,
    grammar: &Grammar,
    table: &Halting,
    left: &[u8],
    right: &[u8],
) -> Result<(), Fail>
    requires range { IsInRange (plain_of grammar.now) }
    requires same { table.now.grammar ≡ plain_of grammar.now }
    requires left { length left.now ≤ 1000 }
    requires right { length right.now ≤ 1000 }
{
    let left = compiled(alloc, grammar, table, left)?;
    let result = put_against(alloc, text, grammar, table, &left, right);
    drop(left);
    result
}

/// Appends the updated file, for an automaton of its grammar.
fn put_updated_by(
    alloc: Global,
    text: &mut String,
    grammar: &Grammar,
    automaton: &Automaton<1>,
    file: &[u8],
) -> Result<(), Fail>
    requires fits { FitsSets 1 grammar.now }
    requires costs { HaveCosts grammar.now.tokens }
    requires automaton { IsAutomaton (plain_of grammar.now) automaton.now }
    requires short { length file.now ≤ 1000 }
{
    let table = table_of(alloc, grammar, automaton)?;
    let result = put_updated(alloc, text, grammar, automaton, &table, file);
    drop(table);
    result
}

/// Appends the states that the second of two files lacks, for an automaton of their grammar.
fn put_lacked_by(
    alloc: Global,
    text: &mut String,
    grammar: &Grammar,
    automaton: &Automaton<1>,
    left: &[u8],
    right: &[u8],
) -> Result<(), Fail>
    requires fits { FitsSets 1 grammar.now }
    requires costs { HaveCosts grammar.now.tokens }
    requires automaton { IsAutomaton (plain_of grammar.now) automaton.now }
    requires left { length left.now ≤ 1000 }
    requires right { length right.now ≤ 1000 }
{
    let table = table_of(alloc, grammar, automaton)?;
    let result = put_lacked(alloc, text, grammar, &table, left, right);
    drop(table);
    result
}

/// Appends the updated file, for its grammar.
fn put_update(
    alloc: Global,
    text: &mut String,
    grammar: &Grammar,
    file: &[u8],
) -> Result<(), Fail> {
    if !is_small(grammar) || file.len() > 1_000 {
        return Err(Fail::from("out of range"));
    }
    let automaton = automaton_of(alloc, grammar)?;
    let result = put_updated_by(alloc, text, grammar, &automaton, file);
    drop(automaton);
    result
}

/// Appends the states that the second of two files lacks, for their grammar.
fn put_pair(
    alloc: Global,
    text: &mut String,
    grammar: &Grammar,
    left: &[u8],
    right: &[u8],
) -> Result<(), Fail> {
    if !is_small(grammar) || left.len() > 1_000 || right.len() > 1_000 {
        return Err(Fail::from("out of range"));
    }
    let automaton = automaton_of(alloc, grammar)?;
    let result = put_lacked_by(alloc, text, grammar, &automaton, left, right);
    drop(automaton);
    result
}

/// Checks a case: one or two files and the wanted result.
fn check_case(alloc: Global, grammar: &Grammar, case: &str) -> Result<(), Fail> {
    let (file, rest) = case.split_once('~').ok_or("a case without a text")?;
    let mut text = String::new(alloc);
    let (result, wanted) = match rest.split_once('~') {
        Some((other, wanted)) => (
            put_pair(alloc, &mut text, grammar, file.as_bytes(), other.as_bytes()),
            wanted,
        ),
        None => (put_update(alloc, &mut text, grammar, file.as_bytes()), rest),
    };
    match result {
        Ok(()) => check(alloc, text, wanted, file),
        Err(fail) => {
            drop(text);
            Err(fail)
        }
    }
}

fn check_files(alloc: Global, grammar: &Grammar, cases: &str) -> Result<(), Fail> {
    for case in cases.split('^') {
        check_case(alloc, grammar, case)?;
    }
    Ok(())
}

fn check_all(alloc: Global, grammar: &Grammar) -> Result<(), Fail> {
    check_files(alloc, grammar, FILES)?;
    check_files(alloc, grammar, PAIRS)
}

#[test]
fn updates(rt: HostRuntime) -> Result<(), Fail> {
    let grammar = grammar_of(rt.alloc(), PAIR)?;
    let result = check_all(rt.alloc(), &grammar);
    drop(grammar);
    result
}
