//! The levels that the resolution of conflicts compares.
ghost use Rattle.std.specs.Prelude.{◌≡◌, ◌<◌, ◌≤◌, ◌↔◌, ◌∷◌, [], length, IsTrue};
ghost use Rattle.std.specs.List.{All};
ghost use Rattle.mh_grammar.specs.Plain.{plain_of, production_count, IsLookBelow};
ghost use Rattle.mh_items_kernels.specs.Kernels.{IsKernelItem};
ghost use Rattle.mh_lint_states.specs.code.ComparedPairs.{HasFlags, IsComparable, ItemsCompare, LooksCompare, MarksPairs};

use crate::states::is_complete;
use mh_grammar::{Grammar, Look, Token};
use mh_items_kernels::KernelItem;
use mh_resolve_cells::Comparison;
use mh_resolve_settle::compare_on;

/// The levels that are compared: a flag for each token, and one for each production, the start productions first.
#[derive(Drop)]
pub struct ComparedLevels {
    pub tokens: Vec<bool>,
    pub productions: Vec<bool>,
}

/// Returns true if the levels of a production and of a token are comparable.
fn are_comparable(grammar: &Grammar, production: u32, token: Token) -> bool
    ensures { IsTrue result ↔ IsComparable grammar.now production token }
{
    !matches!(
        compare_on(grammar, Look::Token(token), production),
        Comparison::Unknown
    )
}

/// Marks a production and a token, if their levels are comparable.
fn mark_pair(compared: &mut ComparedLevels, grammar: &Grammar, production: u32, token: Token)
    requires token { token < length compared.old.tokens.items }
    requires production { production < length compared.old.productions.items }
    ensures { MarksPairs (λ p z. (p ≡ production) × (z ≡ token) × IsComparable grammar.now p z) compared.old compared.new }
{
    if are_comparable(grammar, production, token) {
        compared.tokens[usize::from(token)] = true;
        compared.productions[production as usize] = true;
    }
}

/// Marks a production and one of its looks, if the look is a token that the state can shift.
fn mark_look(
    compared: &mut ComparedLevels,
    grammar: &Grammar,
    shifts: &[Option<u32>],
    production: u32,
    look: Look,
)
    requires flags { HasFlags (length grammar.now.tokens) (production_count (plain_of grammar.now)) compared.old }
    requires shifts { length shifts.now ≡ length grammar.now.tokens }
    requires look { IsLookBelow (length grammar.now.tokens) look }
    requires production { production < production_count (plain_of grammar.now) }
    ensures { MarksPairs (LooksCompare grammar.now shifts.now production (look ∷ [])) compared.old compared.new }
{
    if let Look::Token(token) = look {
        if shifts[usize::from(token)].is_some() {
            mark_pair(compared, grammar, production, token);
        }
    }
}

/// Marks what a complete item compares: its production with each of its looks that the state can shift.
fn mark_item<const W: usize>(
    compared: &mut ComparedLevels,
    grammar: &Grammar,
    shifts: &[Option<u32>],
    item: &KernelItem<W>,
)
    requires few { W ≤ 8 }
    requires flags { HasFlags (length grammar.now.tokens) (production_count (plain_of grammar.now)) compared.old }
    requires shifts { length shifts.now ≡ length grammar.now.tokens }
    requires item { IsKernelItem (plain_of grammar.now) item.now }
    ensures { MarksPairs (LooksCompare grammar.now shifts.now item.now.production item.now.looks) compared.old compared.new }
{
    let mut left = item.looks.copied();
    'looks: while let Some(look) = left.take_first() {
        mark_look(compared, grammar, shifts, item.production, look);
    }
}

/// Marks what the complete items of a state compare.
pub(crate) fn mark_state<const W: usize>(
    compared: &mut ComparedLevels,
    grammar: &Grammar,
    shifts: &[Option<u32>],
    items: &[KernelItem<W>],
)
    requires few { W ≤ 8 }
    requires flags { HasFlags (length grammar.now.tokens) (production_count (plain_of grammar.now)) compared.old }
    requires shifts { length shifts.now ≡ length grammar.now.tokens }
    requires items { All (IsKernelItem (plain_of grammar.now)) items.now }
    ensures { MarksPairs (ItemsCompare grammar.now shifts.now items.now) compared.old compared.new }
{
    for item in items {
        if is_complete(grammar, item) {
            mark_item(compared, grammar, shifts, item);
        }
    }
}
