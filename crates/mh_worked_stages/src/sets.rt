//! Nullable and productive nonterminals, first sets, names and edges, worked out by hand.
ghost use Rattle.mh_grammar.specs.Plain.{plain_of, IsInRange};

use crate::table_cases::check_cases;
use mh_grammar::{
    Edge, Grammar, Memory, NontermInfo, Production, Sequence, Symbol, Token, TokenInfo, find_edge,
    first, from_bytes, is_in_range, left_side_name, nonterminal_name, nullable, productive,
    start_name, symbol_name, token_name, words_begin_with_first,
};
use mh_worked_grammars::{grammar_of, put, put_bytes, put_comma};
use std::alloc::Global;
use std::fmt::Write;
use std::process::Abort;
use std::test::Fail;

const SAMPLE: &str = "A B; s x b c; s: x A b; x:; x: B; b: b; c: B";

fn put_name(text: &mut String, name: &[u8]) {
    put_bytes(text, name);
    put(text, ",");
}

/// Appends the names of two tokens, of symbols, of left sides and of start symbols. The name of a missing one is empty.
pub fn put_names(text: &mut String, grammar: &Grammar) {
    for token in [1, 2] {
        put_name(text, token_name(grammar, token));
    }
    put_name(text, nonterminal_name(grammar, 1));
    for symbol in [Symbol::T(0), Symbol::N(2)] {
        put_name(text, symbol_name(grammar, symbol));
    }
    for production in [0, 1, 3, 5, 6] {
        put_name(text, left_side_name(grammar, production));
    }
    for start in [0, 1] {
        put_name(text, start_name(grammar, start));
    }
}

/// Appends whether each nonterminal is nullable.
pub fn put_nullable(alloc: Global, text: &mut String, grammar: &Grammar) -> Result<(), Fail> {
    if !is_in_range(grammar) {
        return Err(Fail::from("out of range"));
    }
    let marks = nullable(alloc, grammar)?;
    let _ = write!(text, "{:?}", marks.as_slice());
    drop(marks);
    Ok(())
}

/// Appends whether each nonterminal is productive, that is derives some word.
pub fn put_productive(alloc: Global, text: &mut String, grammar: &Grammar) -> Result<(), Fail> {
    if !is_in_range(grammar) {
        return Err(Fail::from("out of range"));
    }
    let marks = productive(alloc, grammar)?;
    let _ = write!(text, "{:?}", marks.as_slice());
    drop(marks);
    Ok(())
}

fn put_rows(text: &mut String, rows: &[Vec<Token>]) {
    for row in rows {
        put_comma(text);
        let _ = write!(text, "{:?}", row.as_slice());
    }
}

/// Appends the first set of each nonterminal.
pub fn put_first(alloc: Global, text: &mut String, grammar: &Grammar) -> Result<(), Fail> {
    if !is_in_range(grammar) {
        return Err(Fail::from("out of range"));
    }
    words_begin_with_first(grammar);
    let rows = first(alloc, grammar)?;
    put_rows(text, &rows);
    drop(rows);
    Ok(())
}

const SETS: &str = "A B; s x b c; s: x A b; x:; x: B; b: b; c: B
names = B,,x,A,b,,s,x,c,,s,,
nullable = [false, true, false, false]
productive = [false, true, false, true]
first = [0, 1], [1], [], [1]";

#[test]
fn sets_of_a_sample(rt: HostRuntime) -> Result<(), Fail> {
    check_cases(rt.alloc(), SETS)
}

fn production(lhs: u16, rhs: Vec<Symbol>) -> Production {
    Production {
        lhs,
        rhs: Sequence::from_vec(rhs),
        level: None,
    }
}

/// Appends a production with this left side and this last token.
fn add_production(
    alloc: Global,
    grammar: &mut Grammar,
    side: u16,
    token: u16,
) -> Result<(), Memory> {
    let rhs = vec![in alloc; Symbol::T(0), Symbol::T(token)]?;
    Ok(grammar.productions.push(production(side, rhs))?)
}

/// Returns true if the sample is in range with one more production of this kind.
fn sample_takes_production(alloc: Global, side: u16, token: u16) -> Result<bool, Fail> {
    let mut grammar = grammar_of(alloc, SAMPLE)?;
    let added = add_production(alloc, &mut grammar, side, token);
    let is_taken = added.is_ok() && is_in_range(&grammar);
    drop(grammar);
    Ok(is_taken)
}

/// Returns true if the sample is in range with one more start symbol.
fn sample_takes_start(alloc: Global, start: u16) -> Result<bool, Fail> {
    let mut grammar = grammar_of(alloc, SAMPLE)?;
    let is_taken = grammar.starts.push(start).is_ok() && is_in_range(&grammar);
    drop(grammar);
    Ok(is_taken)
}

#[test]
fn numbers_that_name_nothing_are_out_of_range(rt: HostRuntime) -> Result<(), Fail> {
    let found = [
        sample_takes_production(rt.alloc(), 3, 1)?,
        sample_takes_production(rt.alloc(), 4, 1)?,
        sample_takes_production(rt.alloc(), 3, 2)?,
        sample_takes_start(rt.alloc(), 3)?,
        sample_takes_start(rt.alloc(), 4)?,
    ];
    assert!(rt; found == [true, false, false, true, false]);
    Ok(())
}

fn add_tokens(alloc: Global, tokens: &mut Sequence<TokenInfo>) -> Result<(), Memory> {
    for _ in 0..256 {
        let name = from_bytes(alloc, b"A")?;
        tokens.push(TokenInfo {
            name,
            level: None,
            cost: 1,
        })?;
    }
    Ok(())
}

fn add_nonterminals(alloc: Global, nonterminals: &mut Sequence<NontermInfo>) -> Result<(), Memory> {
    for _ in 0..20000 {
        let name = from_bytes(alloc, b"n")?;
        nonterminals.push(NontermInfo {
            name,
            on_error: None,
        })?;
    }
    Ok(())
}

fn add_productions(
    alloc: Global,
    productions: &mut Sequence<Production>,
    bottom_up: bool,
) -> Result<(), Memory> {
    for n in 0..20000u16 {
        let lhs = if bottom_up { 19999 - n } else { n };
        let symbol = if lhs < 19999 {
            Symbol::N(lhs + 1)
        } else {
            Symbol::T(255)
        };
        productions.push(production(lhs, vec![in alloc; symbol]?))?;
    }
    Ok(())
}

fn add_chain(alloc: Global, grammar: &mut Grammar, bottom_up: bool) -> Result<(), Memory> {
    add_tokens(alloc, &mut grammar.tokens)?;
    add_nonterminals(alloc, &mut grammar.nonterminals)?;
    add_productions(alloc, &mut grammar.productions, bottom_up)?;
    grammar.starts.push(0)?;
    Ok(())
}

fn check_productive(rt: &impl Abort, alloc: Global, grammar: &Grammar) -> Result<(), Memory>
    requires { IsInRange (plain_of grammar.now) }
{
    let marks = productive(alloc, grammar)?;
    assert!(rt; marks.len() == 20000 && !marks.contains(&false));
    drop(marks);
    Ok(())
}

/// The number of rows that contain exactly the last token.
fn count_last(rows: &[Vec<Token>]) -> usize {
    let mut count = 0usize;
    for row in rows {
        if row.as_slice() == [255].as_slice() {
            count = count.wrapping_add(1);
        }
    }
    count
}

fn check_rows(rt: &impl Abort, alloc: Global, grammar: &Grammar) -> Result<(), Memory>
    requires { IsInRange (plain_of grammar.now) }
{
    let rows = first(alloc, grammar)?;
    assert!(rt; rows.len() == 20000 && count_last(&rows) == 20000);
    drop(rows);
    Ok(())
}

/// A chain of rules n0: n1, n1: n2, and so on, whose last rule is the last of 256 tokens. The rules are listed in this
/// order or in reverse.
fn check_passes(
    rt: &impl Abort,
    alloc: Global,
    grammar: &mut Grammar,
    bottom_up: bool,
) -> Result<(), Memory> {
    add_chain(alloc, grammar, bottom_up)?;
    assert!(rt; is_in_range(grammar));
    check_productive(rt, alloc, grammar)?;
    check_rows(rt, alloc, grammar)
}

fn check_order(rt: &impl Abort, alloc: Global, bottom_up: bool) -> Result<(), Memory> {
    let mut grammar = Grammar {
        tokens: Sequence::new(alloc),
        nonterminals: Sequence::new(alloc),
        productions: Sequence::new(alloc),
        starts: Sequence::new(alloc),
    };
    let result = check_passes(rt, alloc, &mut grammar, bottom_up);
    drop(grammar);
    result
}

/// A pass over the grammar for each rule would take far longer than a test may.
#[test]
fn rules_in_either_order_take_few_passes(rt: HostRuntime) -> Result<(), Fail> {
    check_order(&rt, rt.alloc(), false)?;
    check_order(&rt, rt.alloc(), true)?;
    Ok(())
}

#[test]
fn edges_are_found(rt: HostRuntime) {
    let edges = [(Symbol::T(2), 7), (Symbol::T(5), 4), (Symbol::N(0), 9)].map(|(
        symbol,
        target,
    )| Edge { symbol, target });
    let found = [
        find_edge(&edges, Symbol::T(5)),
        find_edge(&edges, Symbol::N(0)),
        find_edge(&edges, Symbol::T(3)),
    ];
    assert!(rt; found == [Some(4), Some(9), None]);
}
