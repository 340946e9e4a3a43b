//! Canonical automata that were worked out by hand, by Knuth's construction.
use crate::table_cases::check_cases;
use mh_canon::{canonical, is_one_automaton};
use mh_grammar::{Edge, Grammar, Symbol, is_in_range};
use mh_items_kernels::Automaton;
use mh_worked_grammars::{canonical_of, grammar_of, put};
use std::alloc::Global;
use std::fmt::Write;
use std::process::Abort;
use std::test::Fail;

/// Appends an edge: its symbol by number (a token as `t0`, a nonterminal as `n0`) and its target state.
fn put_edge(text: &mut String, edge: Edge) {
    let (kind, number) = match edge.symbol {
        Symbol::T(token) => ('t', token),
        Symbol::N(nonterminal) => ('n', nonterminal),
    };
    let _ = write!(text, " {kind}{number}-{}", edge.target);
}

/// Appends the edges of an automaton, with `/` between the edges of two states.
pub fn put_edges<const W: usize>(text: &mut String, automaton: &Automaton<W>) {
    for (state, edges) in automaton.edges.as_slice().iter().enumerate() {
        put(text, if state > 0 { "/" } else { "" });
        for edge in edges.as_slice() {
            put_edge(text, *edge);
        }
    }
}

/// Appends `:` and the edges of a grammar's automaton.
pub fn put_edges_of(alloc: Global, text: &mut String, grammar: &Grammar) -> Result<(), Fail> {
    let automaton = canonical_of(alloc, grammar)?;
    put(text, ":");
    put_edges(text, &automaton);
    drop(automaton);
    Ok(())
}

/// The edges on tokens come before those on nonterminals, and the edges of a state before those of the next.
///
/// In the third grammar there are two states after C and two after D: one before another `c`, and one at the end. In
/// the fourth, two states after C have the same core. In the last, one state is the target of edges from two states.
const EDGES: &str = "; s; s:
edges = : n0-1/

A EOF; s; s: A EOF
edges = : t0-1 n0-2/ t1-3//

C D; s c; s: c c; c: C c; c: D
edges = : t0-1 t1-2 n0-3 n1-4/ t0-1 t1-2 n1-5/// t0-6 t1-7 n1-8// t0-6 t1-7 n1-9///

A B C D E; s x y; s: A x D; s: B y D; s: A y E; s: B x E; x: C; y: C
edges = : t0-1 t1-2 n0-3/ t2-4 n1-5 n2-6/ t2-7 n1-8 n2-9/// t3-10/ t4-11// t4-12/ t3-13////

INT PLUS TIMES EOF; main e t; main: e EOF; e: e PLUS t; e: t; t: t TIMES INT; t: INT
edges = : t0-1 n0-2 n1-3 n2-4/// t1-5 t3-6/ t2-7/ t0-1 n2-8// t0-9/ t2-7/";

#[test]
fn edges(rt: HostRuntime) -> Result<(), Fail> {
    check_cases(rt.alloc(), EDGES)
}

fn check_one(rt: &impl Abort, alloc: Global, grammar: &Grammar) -> Result<(), Fail> {
    assert!(rt; is_in_range(grammar) && grammar.tokens.len() <= 64);
    let Ok(automaton) = canonical::<1>(alloc, grammar) else {
        return Err(Fail::from("no automaton"));
    };
    is_one_automaton(grammar, &automaton, &automaton);
    drop(automaton);
    Ok(())
}

#[test]
fn one_automaton(rt: HostRuntime) -> Result<(), Fail> {
    let grammar = grammar_of(rt.alloc(), "A; s; s: A")?;
    let result = check_one(&rt, rt.alloc(), &grammar);
    drop(grammar);
    result
}
