//! The tallies of a state's reductions on all looks at once, so that each item is read once.
ghost use Rattle.std.specs.Prelude.{◌≡◌, ◌≤◌, List, length, IfOk};
ghost use Rattle.std.specs.List.{All};
ghost use Rattle.mh_grammar.specs.Plain.{plain_of, rhs_of, IsLookBelow};
ghost use Rattle.mh_grammar.specs.Edges.{IsRising, IsEdgeBefore};
ghost use Rattle.mh_items_kernels.specs.KernelTypes.{KernelItem as Item};
ghost use Rattle.mh_items_kernels.specs.Kernels.{Holds};
ghost use Rattle.mh_resolve_cells.specs.Precedence.{comparison_on};
ghost use Rattle.mh_resolve_cells.specs.code.Tallies.{tally_with, comparison_with_shift};
ghost use Rattle.mh_resolve_cells.specs.code.StateResults.{AreEdgesKnown};
ghost use Rattle.mh_resolve_cells.specs.code.LookTallies.{AreShifts, shift_in, tally_on, IsChanged, AreTallied, AreLooksKnown, WithItem};

use crate::cells::{add_reduction, new_tally};
use crate::levels::length_of;
use mh_grammar::{Edge, Grammar, Look, Memory, Symbol};
use mh_items_kernels::KernelItem;
use mh_resolve_cells::{Tallies, Tally};
use std::alloc::Global;

/// Returns the target of the edge on each token. It fails only if there is no memory.
pub fn shifts_of(alloc: Global, tokens: usize, edges: &[Edge]) -> Result<Vec<Option<u32>>, Memory>
    requires rising { IsRising IsEdgeBefore edges.now }
    requires known { AreEdgesKnown tokens edges.now }
    ensures { IfOk result (λ shifts. AreShifts tokens edges.now shifts.items) }
{
    let mut shifts = vec![in alloc; None; tokens]?;
    for edge in edges {
        if let Symbol::T(token) = edge.symbol {
            shifts[usize::from(token)] = Some(edge.target);
        }
    }
    Ok(shifts)
}

/// Counts a reduction on one look.
fn add(
    tallies: &mut Tallies,
    grammar: &Grammar,
    shifts: &[Option<u32>],
    look: Look,
    production: u32,
)
    requires look { IsLookBelow (length tallies.old.tokens.items) look }
    requires len { length shifts.now ≡ length tallies.old.tokens.items }
    ensures { IsChanged look (tally_with (tally_on tallies.old look) production (comparison_with_shift (comparison_on grammar.now look) (shift_in shifts.now look) production)) tallies.old tallies.new }
{
    match look {
        Look::Token(token) => {
            let at = usize::from(token);
            tallies.tokens[at] = add_reduction(
                tallies.tokens[at],
                grammar,
                look,
                shifts[at],
                production,
            );
        }
        Look::End => {
            tallies.last = add_reduction(tallies.last, grammar, look, None, production);
        }
    }
}

/// Counts a complete item on each of its looks.
fn add_item<const W: usize>(
    tallies: &mut Tallies,
    grammar: &Grammar,
    shifts: &[Option<u32>],
    item: &KernelItem<W>,
)
    requires few { W ≤ 8 }
    requires known { AreLooksKnown (length grammar.now.tokens) item.now }
    requires complete { item.now.dot ≡ length (rhs_of (plain_of grammar.now) item.now.production) }
    requires len { length shifts.now ≡ length grammar.now.tokens }
    requires size { length tallies.old.tokens.items ≡ length grammar.now.tokens }
    ensures size { length tallies.new.tokens.items ≡ length grammar.now.tokens }
    ensures tallied { (xs : List Item) → AreTallied grammar.now (Holds (record { items = xs })) shifts.now tallies.old
        → AreTallied grammar.now (WithItem (Holds (record { items = xs })) item.now item.now.looks) shifts.now tallies.new }
{
    let mut left = item.looks.copied();
    'looks: while let Some(look) = left.take_first() {
        add(tallies, grammar, shifts, look, item.production);
    }
}

/// Returns the tallies of all looks. It fails only if there is no memory.
pub fn tallies_of<const W: usize>(
    alloc: Global,
    grammar: &Grammar,
    items: &[KernelItem<W>],
    shifts: &[Option<u32>],
) -> Result<Tallies, Memory>
    requires few { W ≤ 8 }
    requires known { All (AreLooksKnown (length grammar.now.tokens)) items.now }
    requires len { length shifts.now ≡ length grammar.now.tokens }
    ensures { IfOk result (AreTallied grammar.now (Holds (record { items = items.now })) shifts.now) }
{
    let mut tallies = Tallies {
        tokens: vec![in alloc; new_tally(); grammar.tokens.len()]?,
        last: new_tally(),
    };
    for item in items {
        if item.dot as usize == length_of(grammar, item.production) {
            add_item(&mut tallies, grammar, shifts, item);
        }
    }
    Ok(tallies)
}
