//! One automaton with token sets of several widths.
ghost use Rattle.std.specs.Prelude.{◌≤◌, IfOk};
ghost use Rattle.mh_grammar.specs.Plain.{plain_of};
ghost use Rattle.mh_canon.specs.Canonical.{IsCanonical};
ghost use Rattle.mh_items.specs.Fitting.{FitsSets};

use crate::automata::put_edges;
use crate::closures::put_kernel;
use crate::table_cases::check_cases;
use mh_canon::{canonical, is_one_automaton};
use mh_grammar::{Grammar, is_in_range};
use mh_items_kernels::Automaton;
use mh_worked_grammars::put;
use std::alloc::Global;
use std::fmt::Write;
use std::test::Fail;

/// An automaton as text: its edges and its kernels.
fn text_of<const W: usize>(alloc: Global, automaton: &Automaton<W>) -> String {
    let mut text = String::new(alloc);
    put_edges(&mut text, automaton);
    for kernel in automaton.kernels.as_slice() {
        put(&mut text, "\n");
        put_kernel(&mut text, kernel);
    }
    text
}

/// Returns true if two automata have the same edges, and the same items with the same looks.
fn are_same<const V: usize, const W: usize>(
    alloc: Global,
    left: &Automaton<V>,
    right: &Automaton<W>,
) -> bool {
    let left = text_of(alloc, left);
    let right = text_of(alloc, right);
    left == right
}

/// The canonical automaton with sets of this width in words.
fn canonical_at<const W: usize>(alloc: Global, grammar: &Grammar) -> Result<Automaton<W>, Fail>
    requires fits { FitsSets W grammar.now }
    ensures { IfOk result (IsCanonical (plain_of grammar.now)) }
{
    match canonical(alloc, grammar) {
        Ok(automaton) => Ok(automaton),
        Err(_) => Err(Fail::from("no automaton")),
    }
}

/// Returns true if the automaton with sets of another width equals this one.
fn is_same_at<const V: usize, const W: usize>(
    alloc: Global,
    grammar: &Grammar,
    left: &Automaton<V>,
) -> Result<bool, Fail>
    requires first { V ≤ 8 }
    requires fits { FitsSets W grammar.now }
    requires left { IsCanonical (plain_of grammar.now) left.now }
{
    let right = canonical_at::<W>(alloc, grammar)?;
    is_one_automaton(grammar, left, &right);
    let result = are_same(alloc, left, &right);
    drop(right);
    Ok(result)
}

/// Appends the number of states of an automaton, and whether it is the same with sets of four and of eight words.
fn put_widths(
    alloc: Global,
    text: &mut String,
    grammar: &Grammar,
    one: &Automaton<1>,
) -> Result<(), Fail>
    requires fits { FitsSets 1 grammar.now }
    requires one { IsCanonical (plain_of grammar.now) one.now }
{
    let four = is_same_at::<1, 4>(alloc, grammar, one)?;
    let eight = is_same_at::<1, 8>(alloc, grammar, one)?;
    let _ = write!(text, "{} states, {four}, {eight}", one.kernels.len());
    Ok(())
}

/// Does the same for the automaton of a grammar with sets of one word.
pub fn put_states(alloc: Global, text: &mut String, grammar: &Grammar) -> Result<(), Fail> {
    if !is_in_range(grammar) || grammar.tokens.len() > 64 {
        return Err(Fail::from("out of range"));
    }
    let one = canonical_at::<1>(alloc, grammar)?;
    let result = put_widths(alloc, text, grammar, &one);
    drop(one);
    result
}

const WIDTHS: &str = "C D; s c; s: c c; c: C c; c: D
widths = 10 states, true, true

A B C D E; s x y; s: A x D; s: B y D; s: A y E; s: B x E; x: C; y: C
widths = 14 states, true, true

INT PLUS TIMES EOF; main e t; main: e EOF; e: e PLUS t; e: t; t: t TIMES INT; t: INT
widths = 10 states, true, true";

#[test]
fn of_three_grammars(rt: HostRuntime) -> Result<(), Fail> {
    check_cases(rt.alloc(), WIDTHS)
}
