//! Closures and moves that were worked out by hand.
ghost use Rattle.std.specs.Prelude.{◌<◌, length, IfOk};
ghost use Rattle.mh_grammar.specs.Plain.{plain_of};
ghost use Rattle.mh_items_kernels.specs.Kernels.{IsItemList};
ghost use Rattle.mh_items.specs.Fitting.{FitsSets};

use crate::table_cases::check_cases;
use mh_grammar::{Grammar, Look, Memory, Symbol, is_in_range};
use mh_items::{closure, firsts, moved};
use mh_items_kernels::{Kernel, are_equal, same_items_same_kernel, start_kernel, symbol_at};
use mh_worked_grammars::put;
use std::alloc::Global;
use std::fmt::Write;
use std::test::Fail;

fn put_look(text: &mut String, look: Look) {
    let _ = match look {
        Look::Token(token) => write!(text, " {token}"),
        Look::End => text.push_str(" #"),
    };
}

/// Appends the items of a kernel: production, dot and looks.
pub fn put_kernel<const W: usize>(text: &mut String, kernel: &Kernel<W>) {
    for item in kernel.items.as_slice() {
        let _ = write!(text, "{}.{}", item.production, item.dot);
        for look in item.looks.looks() {
            put_look(text, look);
        }
        put(text, "; ");
    }
}

fn closed_of(alloc: Global, grammar: &Grammar, kernel: &Kernel<1>) -> Result<Kernel<1>, Memory>
    requires fits { FitsSets 1 grammar.now }
    requires kernel { IsItemList (plain_of grammar.now) kernel.now }
    ensures { IfOk result (IsItemList (plain_of grammar.now)) }
{
    let sets = firsts(alloc, grammar)?;
    let closed = closure(alloc, grammar, &sets, kernel);
    drop(sets);
    closed
}

/// The closure of the start kernel.
fn first_state(alloc: Global, grammar: &Grammar) -> Result<Kernel<1>, Memory>
    requires fits { FitsSets 1 grammar.now }
    requires start { 0 < length grammar.now.starts }
    ensures { IfOk result (IsItemList (plain_of grammar.now)) }
{
    let start = start_kernel(alloc, grammar, 0)?;
    let closed = closed_of(alloc, grammar, &start);
    drop(start);
    closed
}

/// The closure of the items that a closed kernel moves on a symbol.
fn next_state(
    alloc: Global,
    grammar: &Grammar,
    closed: &Kernel<1>,
    symbol: Symbol,
) -> Result<Kernel<1>, Memory>
    requires fits { FitsSets 1 grammar.now }
    requires kernel { IsItemList (plain_of grammar.now) closed.now }
{
    let next = moved(alloc, grammar, closed, symbol)?;
    let closed = closed_of(alloc, grammar, &next);
    drop(next);
    closed
}

/// Appends the next state, and whether it equals the first state.
fn put_next(
    alloc: Global,
    text: &mut String,
    grammar: &Grammar,
    closed: &Kernel<1>,
    symbol: Symbol,
) -> Result<(), Memory>
    requires fits { FitsSets 1 grammar.now }
    requires kernel { IsItemList (plain_of grammar.now) closed.now }
{
    let next = next_state(alloc, grammar, closed, symbol)?;
    put_kernel(text, &next);
    put(
        text,
        if are_equal(closed, &next) {
            "same"
        } else {
            "other"
        },
    );
    drop(next);
    Ok(())
}

/// Appends the first state of a grammar's automaton, and the state after a nonterminal.
pub fn put_states(
    alloc: Global,
    text: &mut String,
    grammar: &Grammar,
    nonterminal: &str,
) -> Result<(), Fail> {
    let symbol = Symbol::N(nonterminal.parse()?);
    if !is_in_range(grammar) || grammar.starts.is_empty() || grammar.tokens.len() > 64 {
        return Err(Fail::from("out of range"));
    }
    if symbol_at(grammar, 0, 0).is_none() {
        return Err(Fail::from("out of range"));
    }
    same_items_same_kernel(grammar);
    let first = first_state(alloc, grammar)?;
    put_kernel(text, &first);
    put(text, "/ ");
    let result = put_next(alloc, text, grammar, &first, symbol);
    drop(first);
    Ok(result?)
}

/// In the second grammar, `b` has the end of the stream as lookahead because `x` is nullable.
const STATES: &str = "C D; s c; s: c c; c: C c; c: D
states 1 = 0.0 #; 1.0 #; 2.0 0 1; 3.0 0 1; / 1.1 #; 2.0 #; 3.0 #; other

B; s x b; s: b x; x:; x: B; b: B
states 2 = 0.0 #; 1.0 #; 4.0 0 #; / 1.1 #; 2.0 #; 3.0 #; other";

#[test]
fn states(rt: HostRuntime) -> Result<(), Fail> {
    check_cases(rt.alloc(), STATES)
}
