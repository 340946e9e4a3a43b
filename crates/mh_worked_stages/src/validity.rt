//! Invalid table files: the test that fails, and the state.
use mh_grammar::Grammar;
use mh_tabfile_read::read_tables;
use mh_validate::{ValidFault, validate};
use mh_worked_files::ONE_SENTENCE_TABLE;
use mh_worked_grammars::{are_apart, check, grammar_of, is_small, put};
use std::alloc::Global;
use std::fmt::Write;
use std::process::Abort;
use std::test::Fail;

/// Appends the test that fails.
fn put_fault(text: &mut String, fault: &ValidFault) {
    match fault {
        ValidFault::Invalid {
            state: None,
            reason,
        } => {
            let _ = write!(text, "{reason:?}");
        }
        ValidFault::Invalid {
            state: Some(state),
            reason,
        } => {
            let _ = write!(text, "{state} {reason:?}");
        }
        ValidFault::Memory => put(text, "memory"),
    }
}

/// Appends the result of validating a file: the numbers of states and conflicts, or the test that fails.
fn put_answer(
    alloc: Global,
    text: &mut String,
    grammar: &Grammar,
    file: &[u8],
) -> Result<(), Fail> {
    if file.len() > 10_000 || !is_small(grammar) || !are_apart(grammar) {
        return Err(Fail::from("out of range"));
    }
    let Ok(raw) = read_tables(alloc, file) else {
        return Err(Fail::from("no table file"));
    };
    match validate::<1>(alloc, grammar, &raw) {
        Ok(valid) => {
            let (states, conflicts) = (valid.automaton.kernels.len(), valid.conflicts.len());
            let _ = write!(text, "{states} states, {conflicts} conflicts");
            drop(valid);
        }
        Err(fault) => put_fault(text, &fault),
    }
    drop(raw);
    Ok(())
}

fn put_answer_of(alloc: Global, text: &mut String, grammar: &str, file: &[u8]) -> Result<(), Fail> {
    let grammar = grammar_of(alloc, grammar)?;
    let result = put_answer(alloc, text, &grammar, file);
    drop(grammar);
    result
}

/// Replaces each text before `=` by the text after it.
fn change(rt: &impl Abort, alloc: Global, file: &mut String, changes: &str) -> Result<(), Fail> {
    for change in changes.split_terminator(';') {
        let (old, new) = change.split_once('=').ok_or("a change without a sign")?;
        assert!(rt; file.contains(old), "{change}");
        *file = file.replace(alloc, old, new)?;
    }
    Ok(())
}

fn check_file(alloc: Global, grammar: &str, file: &str, wanted: &str) -> Result<(), Fail> {
    let mut text = String::new(alloc);
    match put_answer_of(alloc, &mut text, grammar, file.as_bytes()) {
        Ok(()) => check(alloc, text, wanted, file),
        Err(fail) => {
            drop(text);
            Err(fail)
        }
    }
}

/// Fails if validating the changed file does not give the wanted result.
fn check_changed(
    rt: &impl Abort,
    alloc: Global,
    grammar: &str,
    changes: &str,
    wanted: &str,
) -> Result<(), Fail> {
    let mut file = ONE_SENTENCE_TABLE.to_string(alloc)?;
    let result = match change(rt, alloc, &mut file, changes) {
        Ok(()) => check_file(alloc, grammar, &file, wanted),
        Err(fail) => Err(fail),
    };
    drop(file);
    result
}

/// The grammar with one sentence, as numbers.
const GRAMMAR: &str = "A EOF; s; s: A EOF";

/// Changes of the table file, `~`, and the result of validating the changed file; `^` is between cases. The header is
/// tested before the number of states, this before all kernels, and these before edges and cells, state by state.
const CASES: &str = "~4 states, 0 conflicts^\
    menhir-tables 2=menhir-tables 1;costs 1 1\n=~4 states, 0 conflicts^\
    costs 1 1=costs 1 2~Header^\
    costs 1 1=costs 1~Header^\
    starts s=starts A~Header^\
    s -> A EOF=s -> A A EOF~Header^\
    item 0 1 #=item 0 1 A #~2 Kernel^\
    item 1 1 #=item 1 3 #~1 Kernel^\
    edge A 1=edge A 3;item 0 1 #=item 0 1 A #~2 Kernel^\
    edge A 1=edge A 3~0 Edge^\
    item 1 2 #=item 1 2 A~1 Edge^\
    edge EOF 3\n=~1 Edge^\
    cell A shift 1=default reduce 1~0 Cell^\
    cell A shift 1=cell A shift 2;edge EOF 3=edge EOF 2~0 Cell^\
    default reduce 1=cell A reduce 1~3 Cell^\
    default reduce 1=default accept~3 Fallback";

#[test]
fn validity(rt: HostRuntime) -> Result<(), Fail> {
    for case in CASES.split('^') {
        let (changes, wanted) = case.split_once('~').ok_or("a case without a `~`")?;
        check_changed(&rt, rt.alloc(), GRAMMAR, changes, wanted)?;
    }
    // The file is one of another grammar.
    check_changed(&rt, rt.alloc(), "A EOF; s; s: A A EOF", "", "Header")
}
