//! The nonterminals whose closure may add empty productions.
ghost use Rattle.std.specs.Prelude.{◌≡◌, ◌^◌, ◌<◌, ℕ, true, false, not, length, count_by, slice_index_or, vec_len, IfOk};
ghost use Rattle.std.specs.List.{All};
ghost use Rattle.mh_grammar.specs.FlagTable.{Grows};
ghost use Rattle.mh_grammar.specs.Plain.{plain_of, IsInRange, IsProductionBelow, IsSymbolBelow};
ghost use Rattle.mh_items_kernels.specs.code.EmptyMarks.{AreMarksClosed, begins_empty};

use mh_grammar::{Grammar, Memory, Production, Symbol};
use std::alloc::Global;

/// Returns a mark for each nonterminal: true if one of its productions is empty or begins with a marked nonterminal.
/// The closure of an item before an unmarked nonterminal adds no empty production.
pub(crate) fn empties(alloc: Global, grammar: &Grammar) -> Result<Vec<bool>, Memory>
    requires { IsInRange (plain_of grammar.now) }
    ensures len { IfOk result (λ v. vec_len v ≡ length grammar.now.nonterminals) }
    ensures closed { IfOk result (λ v. AreMarksClosed grammar.now.productions v.items) }
{
    let mut marks = vec![in alloc; false; grammar.nonterminals.len()]?;
    let mut changed = true;
    while changed {
        changed = mark_once(grammar.productions.as_slice(), &mut marks);
    }
    Ok(marks)
}

/// Adds the marks that one backward and one forward pass over the productions find, and returns whether there were any.
/// With one direction alone, a grammar written in the other order would need a round for each rule.
fn mark_once(productions: &[Production], marks: &mut [bool]) -> bool
    requires { All (IsProductionBelow (2 ^ 16) (length marks.old)) productions.now }
    ensures grows { Grows marks.old marks.new result }
    ensures closed { result ≡ false → AreMarksClosed productions.now marks.new }
{
    let mut changed = false;
    for place in (0..productions.len()).rev() {
        changed |= mark_left_side(&productions[place], marks);
    }
    for production in productions {
        changed |= mark_left_side(production, marks);
    }
    changed
}

/// Marks the left side of a production that is empty or begins with a marked nonterminal; returns whether the mark is
/// new.
fn mark_left_side(production: &Production, marks: &mut [bool]) -> bool
    requires { IsProductionBelow (2 ^ 16) (length marks.old) production.now }
    ensures grows { Grows marks.old marks.new result }
    ensures closed { result ≡ false → begins_empty marks.new production.now.rhs ≡ true → slice_index_or marks.new production.now.lhs false ≡ true }
{
    let lhs = usize::from(production.lhs);
    if marks[lhs] {
        return false;
    }
    if !may_begin_empty(marks, production.rhs.as_slice()) {
        return false;
    }
    marks[lhs] = true;
    true
}

/// True if a right side is empty or begins with a marked nonterminal.
fn may_begin_empty(marks: &[bool], symbols: &[Symbol]) -> bool
    requires { All (IsSymbolBelow (2 ^ 16) (length marks.now)) symbols.now }
    ensures { result ≡ begins_empty marks.now symbols.now }
{
    match symbols.first() {
        None => true,
        Some(Symbol::T(_)) => false,
        Some(Symbol::N(n)) => marks[usize::from(*n)],
    }
}
