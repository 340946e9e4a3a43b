//! The nonterminals that derive the empty word, and those that derive some word.
ghost use Rattle.std.specs.Prelude.{◌≡◌, ◌^◌, ◌<◌, ◌≤◌, ◌↔◌, ℕ, List, Some, true, false, not, length, count_by, slice_get, slice_index_or, vec_len, IsTrue, IfOk};
ghost use Rattle.std.specs.List.{All};
ghost use Rattle.mh_grammar.specs.FlagTable.{Grows};
ghost use Rattle.mh_grammar.specs.Plain.{plain_of, IsInRange, IsSymbolBelow, IsProductionBelow, IsNullable, IsProductive};
ghost use Rattle.mh_grammar.specs.Marked.{mark_of, all_marked, AreSound, AreClosed, AreMarks, HasMark};

use crate::types::{Grammar, Memory, Production, Symbol};
use crate::worklist::mark_all;
use std::alloc::Global;

/// Returns, for each nonterminal, whether it derives the empty word. It fails only for lack of memory.
pub fn nullable(alloc: Global, grammar: &Grammar) -> Result<Vec<bool>, Memory>
    requires { IsInRange (plain_of grammar.now) }
    ensures len { IfOk result (λ v. vec_len v ≡ length grammar.now.nonterminals) }
    ensures exact { IfOk result (λ v. (n : ℕ) → IsTrue (slice_index_or v.items n false) ↔ IsNullable (plain_of grammar.now) n) }
{
    least_marks(alloc, grammar, false)
}

/// Returns, for each nonterminal, whether it derives some word. It fails only for lack of memory.
pub fn productive(alloc: Global, grammar: &Grammar) -> Result<Vec<bool>, Memory>
    requires { IsInRange (plain_of grammar.now) }
    ensures len { IfOk result (λ v. vec_len v ≡ length grammar.now.nonterminals) }
    ensures exact { IfOk result (λ v. (n : ℕ) → IsTrue (slice_index_or v.items n false) ↔ IsProductive (plain_of grammar.now) n) }
{
    least_marks(alloc, grammar, true)
}

/// Returns the least marks such that a nonterminal is marked if all symbols of one of its right sides are. If `tokens`
/// is true, every token counts as marked; otherwise none does.
fn least_marks(alloc: Global, grammar: &Grammar, tokens: bool) -> Result<Vec<bool>, Memory>
    requires { IsInRange (plain_of grammar.now) }
    ensures len { IfOk result (λ v. vec_len v ≡ length grammar.now.nonterminals) }
    ensures least { IfOk result (λ v. AreMarks tokens grammar.now.productions v.items) }
{
    let mut marks = vec![in alloc; false; grammar.nonterminals.len()]?;
    mark_all(alloc, grammar, tokens, &mut marks)?;
    let mut changed = true;
    while changed {
        changed = mark_once(tokens, grammar.productions.as_slice(), &mut marks);
    }
    Ok(marks)
}

/// Adds the marks that one backward and one forward pass over the productions find, and returns whether there were any.
/// Marks pass from right sides to left sides: in a file written top down a forward pass alone would carry them up by
/// one rule, and in one written bottom up a backward pass alone would.
fn mark_once(tokens: bool, productions: &[Production], marks: &mut [bool]) -> bool
    requires { All (IsProductionBelow (2 ^ 16) (length marks.old)) productions.now }
    ensures sound { AreSound tokens productions.now marks.old → AreSound tokens productions.now marks.new }
    ensures closed { result ≡ false → AreClosed tokens productions.now marks.new }
    ensures shrinks { result ≡ true → count_by not marks.new < count_by not marks.old }
    ensures same { result ≡ false → marks.new ≡ marks.old }
{
    let mut changed = false;
    for place in (0..productions.len()).rev() {
        changed |= mark_left_side(tokens, &productions[place], marks);
    }
    for production in productions {
        changed |= mark_left_side(tokens, production, marks);
    }
    changed
}

/// Marks the left side of a production whose symbols are all marked, and returns whether the mark is new.
pub(crate) fn mark_left_side(tokens: bool, production: &Production, marks: &mut [bool]) -> bool
    requires { IsProductionBelow (2 ^ 16) (length marks.old) production.now }
    ensures grows { Grows marks.old marks.new result }
    ensures sound { (ps : List Production) (k : ℕ) → slice_get ps k ≡ Some production.now → AreSound tokens ps marks.old → AreSound tokens ps marks.new }
    ensures closed { result ≡ false → all_marked tokens marks.new production.now.rhs ≡ true → slice_index_or marks.new production.now.lhs false ≡ true }
{
    let lhs = usize::from(production.lhs);
    if marks[lhs] {
        return false;
    }
    if !are_marked(tokens, marks, production.rhs.as_slice()) {
        return false;
    }
    marks[lhs] = true;
    true
}

/// Returns whether all symbols of a right side are marked.
fn are_marked(tokens: bool, marks: &[bool], symbols: &[Symbol]) -> bool
    requires { All (IsSymbolBelow (2 ^ 16) (length marks.now)) symbols.now }
    ensures { result ≡ all_marked tokens marks.now symbols.now }
{
    for symbol in symbols {
        if !is_marked(tokens, marks, *symbol) {
            return false;
        }
    }
    true
}

/// Returns whether a symbol is marked.
pub(crate) fn is_marked(tokens: bool, marks: &[bool], symbol: Symbol) -> bool
    requires { HasMark (length marks.now) symbol }
    ensures { result ≡ mark_of tokens marks.now symbol }
{
    match symbol {
        Symbol::T(_) => tokens,
        Symbol::N(n) => marks[usize::from(n)],
    }
}
