//! Table files that were written by hand: the file written for a grammar, the content read from it, and the first bad
//! line of other files.
ghost use Rattle.std.specs.Prelude.{◌<◌, ◌^◌, length};
ghost use Rattle.mh_grammar.specs.Costs.{HaveCosts};
ghost use Rattle.mh_grammar.specs.Plain.{plain_of};
ghost use Rattle.mh_items_kernels.specs.Automaton.{IsAutomaton};
ghost use Rattle.mh_items.specs.Fitting.{FitsSets};

use mh_canon::canonical;
use mh_grammar::{Grammar, Memory, has_costs_in_range, is_in_range};
use mh_items_kernels::Automaton;
use mh_resolve::resolve;
use mh_resolve_cells::Mode;
use mh_tabfile::write_tables;
use mh_tabfile_form::{RawCells, RawTable};
use mh_tabfile_read::{TabFault, read_tables};
use mh_worked_files::ONE_SENTENCE_TABLE;
use mh_worked_grammars::{check, grammar_of, put};
use std::alloc::Global;
use std::fmt::Write;
use std::process::Abort;
use std::test::Fail;

/// A grammar with one sentence.
const SMALL: &str = "A EOF; s; s: A EOF";

/// A grammar with two start symbols, an empty production, a cost, and looks of which the last is the end of the stream.
const LARGER: &str = "B$7 C; s t*; s: B t; t:; t: C";

const LARGER_FILE: &str =
    "menhir-tables 2 canonical\ntokens B C\ncosts 7 1\nstarts s t\nproductions 3\n\
    s -> B t\nt ->\nt -> C\nstates 7\nstate 0\nitem 0 0 #\nedge B 2\nedge s 3\ncell B shift 2\n\
    state 1\nitem 1 0 #\nedge C 4\nedge t 5\ncell C shift 4\n\
    state 2\nitem 2 1 #\nedge C 4\nedge t 6\ncell C shift 4\nstate 3\nitem 0 1 #\ndefault accept\n\
    state 4\nitem 4 1 #\ndefault reduce 4\nstate 5\nitem 1 1 #\ndefault accept\n\
    state 6\nitem 2 2 #\ndefault reduce 2\nend\n";

/// The table file of an automaton and its table.
fn file_of(
    alloc: Global,
    grammar: &Grammar,
    automaton: &Automaton<1>,
    mode: Mode,
) -> Result<Vec<u8>, Memory>
    requires fits { FitsSets 1 grammar.now }
    requires costs { HaveCosts grammar.now.tokens }
    requires automaton { IsAutomaton (plain_of grammar.now) automaton.now }
{
    let (table, conflicts) = resolve(alloc, grammar, automaton, mode)?;
    let file = write_tables(alloc, grammar, automaton, &table, mode);
    drop(table);
    drop(conflicts);
    file
}

/// The table file of a grammar's canonical automaton.
fn written_by(alloc: Global, grammar: &Grammar, mode: Mode) -> Result<Vec<u8>, Fail> {
    if !is_in_range(grammar) || !has_costs_in_range(grammar) || grammar.tokens.len() > 64 {
        return Err(Fail::from("out of range"));
    }
    let Ok(automaton) = canonical::<1>(alloc, grammar) else {
        return Err(Fail::from("no automaton"));
    };
    let file = file_of(alloc, grammar, &automaton, mode);
    drop(automaton);
    Ok(file?)
}

fn written_of(alloc: Global, text: &str, mode: Mode) -> Result<Vec<u8>, Fail> {
    let grammar = grammar_of(alloc, text)?;
    let file = written_by(alloc, &grammar, mode);
    drop(grammar);
    file
}

fn check_file(
    rt: &impl Abort,
    alloc: Global,
    grammar: &str,
    mode: Mode,
    wanted: &str,
) -> Result<(), Fail> {
    let file = written_of(alloc, grammar, mode)?;
    assert_eq!(rt; file.as_slice(), wanted.as_bytes(), "{grammar}");
    Ok(())
}

#[test]
fn written(rt: HostRuntime) -> Result<(), Fail> {
    check_file(&rt, rt.alloc(), SMALL, Mode::Merged, ONE_SENTENCE_TABLE)?;
    check_file(&rt, rt.alloc(), LARGER, Mode::Canonical, LARGER_FILE)
}

/// Appends the result of reading: the number of states, another version, the first bad line, or that memory ran out.
fn put_answer(alloc: Global, text: &mut String, file: &[u8])
    requires { length file.now < 2 ^ 31 }
{
    match read_tables(alloc, file) {
        Ok(table) => {
            let _ = write!(text, "{} states", table.states.len());
            drop(table);
        }
        Err(TabFault::Version) => put(text, "version"),
        Err(TabFault::TabShape { line }) => {
            let _ = write!(text, "line {line}");
        }
        Err(TabFault::Memory) => put(text, "memory"),
    }
}

fn check_answer(alloc: Global, file: &str, wanted: &str) -> Result<(), Fail> {
    if file.len() > 100_000_000 {
        return Err(Fail::from("a file is too long"));
    }
    let mut text = String::new(alloc);
    put_answer(alloc, &mut text, file.as_bytes());
    check(alloc, text, wanted, file)
}

/// Checks the result of reading a file that the test has built, and drops the file.
fn check_built(alloc: Global, file: String, wanted: &str) -> Result<(), Fail> {
    let result = check_answer(alloc, &file, wanted);
    drop(file);
    result
}

#[test]
fn ends(rt: HostRuntime) -> Result<(), Fail> {
    let alloc = rt.alloc();
    check_answer(alloc, "", "line 1")?;
    check_answer(alloc, ONE_SENTENCE_TABLE, "4 states")?;
    let (front, _) = ONE_SENTENCE_TABLE.split_at(ONE_SENTENCE_TABLE.len() - 1);
    check_answer(alloc, front, "line 23")?;
    let (front, _) = ONE_SENTENCE_TABLE.split_at(ONE_SENTENCE_TABLE.len() - 4);
    check_answer(alloc, front, "line 22")?;
    let longer = format!(in alloc; "{ONE_SENTENCE_TABLE}\n")?;
    check_built(alloc, longer, "line 24")
}

/// Files with various first lines, of which some have other lines after them; `~` is before the result and `^` between
/// cases.
const VERSIONS: &str = "menhir-tables 9 merged~version^\
    menhir-tables 9 merged\nno table~version^\
    menhir-tables 0 canonical\n~version^\
    menhir-tables 4294967295 merged\n~version^\
    menhir-tables 4294967296 merged\n~line 1^\
    menhir-tables 02 merged\n~line 1^\
    menhir-tables 9 pager\n~line 1^\
    menhir-tables 9 merged \n~line 1^\
    menhir-tables 2 merged~line 1^\
    menhir-tables 2 merged\n~line 1^\
    menhir-tables 2 merged\nno table\n~line 2";

/// The first lines of a small file, up to its productions, except for its first word.
const HEADS: &str = "1 merged\ntokens\nstarts\nproductions 0~1 states^\
    2 merged\ntokens\ncosts\nstarts\nproductions 0~1 states^\
    2 merged\ntokens A\ncosts 1 2 3\nstarts\nproductions 0~1 states^\
    2 merged\ntokens A\tB \nstarts~line 2^\
    2 merged\ntokens\ncosts 4294967295\nstarts\nproductions 0~1 states^\
    2 merged\ntokens\ncosts 4294967296\nstarts\nproductions 0~line 3^\
    2 merged\ntokens\ncosts x\nstarts\nproductions 0~line 3^\
    1 merged\ntokens\ncosts\nstarts\nproductions 0~line 3^\
    2 merged\ntokens\nstarts\nproductions 0~line 3^\
    1 merged\ntokens A  B\nstarts\nproductions 0~line 2^\
    1 merged\nstarts\ntokens\nproductions 0~line 2^\
    1 merged\ntokens\nstarts\nproductions 1~line 5^\
    1 merged\ntokens\nstarts\nproductions 1\ns ->~1 states^\
    1 merged\ntokens\nstarts\nproductions 1\nend -> end ->~1 states^\
    1 merged\ntokens\nstarts\nproductions 1\ns ->\nt ->~line 6^\
    1 merged\ntokens\nstarts\nproductions 01~line 4";

/// The lines of one state.
const STATES: &str = "\
    state 0\nitem 0 0\nitem 9 9 x # y\nedge x 9\nedge # 4294967295\ncell x shift 1\ncell y reduce 0~1 states^\
    state 0\ndefault accept~1 states^\
    state 0\nedge x 1\ndefault reduce 7~1 states^\
    state 1~line 6^\
    item 0 0 #~line 6^\
    state 0\nstate 1~line 7^\
    state 0\nitem 0~line 7^\
    state 0\nitem 0 4294967296~line 7^\
    state 0\nedge x 1\nitem 0 0 #~line 8^\
    state 0\ncell x shift 1\nedge x 1~line 8^\
    state 0\ncell x shift 1\ndefault accept~line 8^\
    state 0\ndefault accept\ndefault accept~line 8^\
    state 0\ncell x accept~line 7^\
    state 0\nedge x~line 7^\
    state 0\n~line 7";

/// Checks a case whose file is the lines of the case between a common beginning and a common end.
fn check_case(alloc: Global, (front, case, back): (&str, &str, &str)) -> Result<(), Fail> {
    let (lines, wanted) = case.split_once('~').ok_or("a case without a `~`")?;
    let file = format!(in alloc; "{front}{lines}{back}")?;
    check_built(alloc, file, wanted)
}

fn check_forms(alloc: Global, front: &str, cases: &str, back: &str) -> Result<(), Fail> {
    for case in cases.split('^') {
        check_case(alloc, (front, case, back))?;
    }
    Ok(())
}

#[test]
fn forms(rt: HostRuntime) -> Result<(), Fail> {
    let alloc = rt.alloc();
    let back = "\nstates 1\nstate 0\nend\n";
    let front = "menhir-tables 1 merged\ntokens\nstarts\nproductions 0\nstates 1\n";
    check_forms(alloc, "", VERSIONS, "")?;
    check_forms(alloc, "menhir-tables ", HEADS, back)?;
    check_forms(alloc, front, STATES, "\nend\n")
}

fn has_default(table: &RawTable, state: usize) -> bool {
    match table.states.get(state) {
        Some(state) => matches!(state.cells, RawCells::Fallback(_)),
        None => false,
    }
}

/// Checks the content of the small file, in both versions.
fn check_small(rt: &impl Abort, table: &RawTable, has_costs: bool) {
    let counts = [
        table.tokens.len(),
        table.productions.len(),
        table.states.len(),
    ];
    let marks = [
        table.mode == Mode::Merged,
        table.costs.is_some(),
        has_default(table, 0),
        has_default(table, 3),
    ];
    assert!(rt; counts == [2, 1, 4] && marks == [true, has_costs, false, true]);
}

fn check_contents(rt: &impl Abort, alloc: Global, file: &str, has_costs: bool) -> Result<(), Fail> {
    if file.len() > 100_000_000 {
        return Err(Fail::from("a file is too long"));
    }
    let Ok(table) = read_tables(alloc, file.as_bytes()) else {
        return Err(Fail::from("no table"));
    };
    check_small(rt, &table, has_costs);
    drop(table);
    Ok(())
}

/// The small file in version 1.
fn older_file(alloc: Global) -> Result<String, Fail> {
    let (head, rest) = ONE_SENTENCE_TABLE
        .split_once("costs 1 1\n")
        .ok_or("no costs")?;
    let (_, head) = head.split_once(" 2 ").ok_or("no version")?;
    Ok(format!(in alloc; "menhir-tables 1 {head}{rest}")?)
}

#[test]
fn contents(rt: HostRuntime) -> Result<(), Fail> {
    check_contents(&rt, rt.alloc(), ONE_SENTENCE_TABLE, true)?;
    let older = older_file(rt.alloc())?;
    let result = check_contents(&rt, rt.alloc(), &older, false);
    drop(older);
    result
}

/// A line of a hundred thousand words, and a hundred thousand states.
#[test]
fn large(rt: HostRuntime) -> Result<(), Fail> {
    let mut file = String::new(rt.alloc());
    put_large(&mut file);
    check_built(rt.alloc(), file, "100000 states")
}

fn put_large(file: &mut String) {
    let _ = file.push_str("menhir-tables 1 merged\ntokens");
    for _ in 0..100_000 {
        let _ = file.push_str(" A");
    }
    let _ = file.push_str("\nstarts\nproductions 0\nstates 100000\n");
    for state in 0..100_000 {
        let _ = write!(file, "state {state}\nedge A 1\n");
    }
    let _ = file.push_str("end\n");
}
