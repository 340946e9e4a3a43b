//! A sample that was worked out by hand: the smallest grammar, some of its sentences, and the counts for its canonical
//! table.
ghost use Rattle.std.specs.Prelude.{◌≡◌};
ghost use Rattle.mh_grammar.specs.Costs.{HaveCosts};
ghost use Rattle.mh_grammar.specs.Plain.{plain_of, IsInRange};
ghost use Rattle.mh_items_kernels.specs.Automaton.{IsAutomaton};
ghost use Rattle.mh_items.specs.Fitting.{FitsSets};

use crate::run_cases::check_cases;
use mh_catalogue::catalogue;
use mh_grammar::Grammar;
use mh_items_kernels::Automaton;
use mh_sample::{sample, sample_grammar, sample_line};
use mh_tables_core::Halting;
use mh_worked_grammars::{automaton_of, is_small, put, put_bytes, table_of};
use std::alloc::Global;
use std::test::Fail;

/// The grammar of sample 0, with two operators.
const GRAMMAR: &str =
    "%token EOF LP RP INT\n%token OP1\n%token OP2\n%start main\n%%\nmain: e1 EOF {}\n\
     e1: e1 OP1 e2 {} | e2 {}\ne2: e2 OP2 a {} | a {}\na: INT {} | LP e1 RP {}\n";

/// The first four sentences of sample 0.
const FIRST: &str = "INT EOF\nLP INT OP2 INT RP EOF\nLP LP INT OP1 INT OP1 INT RP RP EOF\n\
     LP LP LP INT OP2 INT OP1 INT OP2 INT RP RP EOF\n";

/// The LF before the last line, and the last sentence of sample 0.
const LAST: &str =
    "\nLP LP LP LP LP LP LP INT OP2 INT OP1 INT OP2 INT OP1 INT RP RP RP RP RP RP RP EOF\n";

/// The same grammar in the notation of these tests, and the line of counts of sample 0.
const SAME: &str =
    "EOF LP RP INT OP1 OP2; main e1 e2 a; main: e1 EOF; e1: e1 OP1 e2; e1: e2; e2: e2 OP2 a; e2: a; a: INT; a: LP e1 RP
sample = sample 0: tokens 6, productions 7, states 24, listed 11, accept 2059, overshoot 0, reject 941";

/// Appends a line without its LF.
fn put_whole_line(text: &mut String, line: &[u8]) {
    match line.strip_suffix(b"\n") {
        Some(line) => put_bytes(text, line),
        None => put(text, "no end of a line"),
    }
}

fn put_by_table(
    alloc: Global,
    text: &mut String,
    grammar: &Grammar,
    table: &Halting,
) -> Result<(), Fail>
    requires range { IsInRange (plain_of grammar.now) }
    requires same { table.now.grammar ≡ plain_of grammar.now }
{
    let Ok(rows) = catalogue(alloc, table) else {
        return Err(Fail::from("no catalogue"));
    };
    let listed = rows.len();
    drop(rows);
    let line = sample_line(alloc, 0, grammar, table, listed)?;
    put_whole_line(text, &line);
    drop(line);
    Ok(())
}

fn put_by_automaton(
    alloc: Global,
    text: &mut String,
    grammar: &Grammar,
    automaton: &Automaton<1>,
) -> Result<(), Fail>
    requires fits { FitsSets 1 grammar.now }
    requires costs { HaveCosts grammar.now.tokens }
    requires automaton { IsAutomaton (plain_of grammar.now) automaton.now }
{
    let table = table_of(alloc, grammar, automaton)?;
    let result = put_by_table(alloc, text, grammar, &table);
    drop(table);
    result
}

/// Appends the line of counts of sample 0 for a grammar.
pub fn put_line(alloc: Global, text: &mut String, grammar: &Grammar) -> Result<(), Fail> {
    if !is_small(grammar) {
        return Err(Fail::from("out of range"));
    }
    let automaton = automaton_of(alloc, grammar)?;
    let result = put_by_automaton(alloc, text, grammar, &automaton);
    drop(automaton);
    result
}

/// Returns true if there are 3,000 sentences, of which the first four and the last are the expected ones.
fn are_sentences(sentences: &[u8]) -> bool {
    let text = str::from_utf8(sentences).unwrap_or("");
    text.starts_with(FIRST) && text.ends_with(LAST) && text.lines().count() == 3_000
}

#[test]
fn samples(rt: HostRuntime) -> Result<(), Fail> {
    let grammar = sample_grammar(rt.alloc(), 0)?;
    let is_grammar = grammar.as_slice() == GRAMMAR.as_bytes();
    drop(grammar);
    assert!(rt; is_grammar);
    let sample = sample(rt.alloc(), 0)?;
    let are_sentences = are_sentences(&sample.sentences);
    drop(sample);
    assert!(rt; are_sentences);
    check_cases(rt.alloc(), SAME)
}
