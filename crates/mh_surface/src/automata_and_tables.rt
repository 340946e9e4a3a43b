//! Automata and tables: how states are made of items, and the content of a table.
ghost use Rattle.std.specs.Prelude.{◌≡◌, length, IfOk};
ghost use Rattle.mh_grammar.specs.Plain.{plain_of};
ghost use Rattle.mh_items_kernels.specs.Kernels.{IsItemList};
ghost use Rattle.mh_items.specs.Fitting.{FitsSets};

use crate::example::{has_counts, has_edges};
use crate::making::{A, EOF};
use mh_canon::canonical;
use mh_grammar::{Grammar, Memory, Symbol};
use mh_items::first_sets::Firsts;
use mh_items::{Automaton, Kernel, KernelItem, closure, firsts, moved, start_kernel};
use mh_pager::weakly_compatible;
use mh_tables::{Action, Fallback, Halting, Table};
use std::alloc::Global;
use std::process::Abort;
use std::test::Fail;

/// The production and the dot of an item.
fn pair_of(item: &KernelItem<1>) -> (u32, u32) {
    (item.production, item.dot)
}

/// Returns true if the items of a kernel have these productions and dots.
fn has_pairs(kernel: &Kernel<1>, pairs: &[(u32, u32)]) -> bool {
    let items = kernel.items.as_slice();
    items.len() == pairs.len()
        && items
            .iter()
            .zip(pairs)
            .all(|(item, pair)| pair_of(item) == *pair)
}

/// The closure of a kernel.
fn closed_of(alloc: Global, grammar: &Grammar, kernel: &Kernel<1>) -> Result<Kernel<1>, Memory>
    requires fits { FitsSets 1 grammar.now }
    requires kernel { IsItemList (plain_of grammar.now) kernel.now }
    ensures { IfOk result (IsItemList (plain_of grammar.now)) }
{
    let sets: Firsts<1> = firsts(alloc, grammar)?;
    let closed = closure(alloc, grammar, &sets, kernel);
    drop(sets);
    closed
}

/// Returns true if a kernel is weakly compatible with itself; every kernel is.
fn fits_itself(grammar: &Grammar, kernel: &Kernel<1>) -> bool
    requires kernel { IsItemList (plain_of grammar.now) kernel.now }
{
    // Only the contract uses the grammar.
    let _grammar = grammar;
    weakly_compatible(kernel, kernel)
}

/// The closure of the start kernel `s' -> . s` adds `s -> . A EOF`, and on `A` this item moves to `s -> A . EOF`.
fn check_closure(
    rt: &impl Abort,
    alloc: Global,
    grammar: &Grammar,
    kernel: &Kernel<1>,
) -> Result<(), Fail>
    requires fits { FitsSets 1 grammar.now }
    requires kernel { IsItemList (plain_of grammar.now) kernel.now }
{
    assert!(rt; has_pairs(kernel, &[(0, 0)]) && fits_itself(grammar, kernel));
    let closed = closed_of(alloc, grammar, kernel)?;
    let next = moved(alloc, grammar, &closed, Symbol::T(A));
    let is_closed = has_pairs(&closed, &[(0, 0), (1, 0)]);
    drop(closed);
    let next = next?;
    assert!(rt; is_closed && has_pairs(&next, &[(1, 1)]));
    drop(next);
    Ok(())
}

/// States are made of items, by closures and moves.
pub fn items(rt: &impl Abort, alloc: Global, grammar: &Grammar) -> Result<(), Fail>
    requires fits { FitsSets 1 grammar.now }
{
    if grammar.starts.is_empty() {
        return Err(Fail::from("no start"));
    }
    let kernel = start_kernel(alloc, grammar, 0)?;
    let result = check_closure(rt, alloc, grammar, &kernel);
    drop(kernel);
    result
}

/// For this grammar, Knuth's canonical automaton has the same states as Pager's, because there are no states to merge.
pub fn automata(
    rt: &impl Abort,
    alloc: Global,
    grammar: &Grammar,
    automaton: &Automaton<1>,
) -> Result<(), Fail>
    requires fits { FitsSets 1 grammar.now }
{
    assert!(rt; has_edges(automaton));
    let Ok(larger) = canonical::<1>(alloc, grammar) else {
        return Err(Fail::from("no automaton"));
    };
    let is_same = has_edges(&larger);
    drop(larger);
    assert!(rt; is_same);
    Ok(())
}

/// The cells of states 0 and 1, and the default actions of states 2 and 3.
fn check_cells(rt: &impl Abort, table: &Table)
    requires states { length table.now.states ≡ 4 }
    requires tokens { table.now.grammar.tokens ≡ 2 }
{
    let cells = [
        table.action(0, A),
        table.action(0, EOF),
        table.action(1, EOF),
    ];
    assert!(rt; cells == [Action::Shift(1), Action::Refuse, Action::Shift(3)]);
    let defaults = [table.fallback(0), table.fallback(2), table.fallback(3)];
    assert!(rt; defaults == [None, Some(Fallback::Accept), Some(Fallback::Reduce(1))]);
    assert!(rt; table.goto(0, 0) == Some(2) && table.goto(1, 0).is_none());
}

/// Production 1 is `s -> A EOF`.
fn check_production(rt: &impl Abort, table: &Table) -> Result<(), Fail> {
    if table.starts() != 1 || table.productions() != 2 || table.length_of(1) != 2 {
        return Err(Fail::from("other productions"));
    }
    let right = [table.symbol_of(1, 0), table.symbol_of(1, 1)];
    assert!(rt; table.lhs_of(1) == 0 && right == [Symbol::T(A), Symbol::T(EOF)]);
    Ok(())
}

/// The content of a table.
pub fn cells(rt: &impl Abort, table: &Halting) -> Result<(), Fail> {
    let table = table.table();
    if table.states() != 4 || table.tokens() != 2 {
        return Err(Fail::from("other counts"));
    }
    assert!(rt; has_counts(table));
    check_cells(rt, table);
    check_production(rt, table)
}
