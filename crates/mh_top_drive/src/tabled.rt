//! The automaton of a grammar with its table and its conflicts.
use mh_grammar::Sequence;
use mh_items_kernels::AutomatonWith;
use mh_resolve_cells::{Conflict, Mode};
use mh_sets::TokenSet;
use mh_tables_core::Halting;

/// The automaton of a grammar, its table, on which every run ends, and its conflicts in order. `L` is the type of
/// lookahead sets.
pub struct TabledAutomatonWith<L> {
    pub automaton: AutomatonWith<L>,
    pub halting: Halting,
    pub conflicts: Sequence<Conflict>,
    /// Whether the table was resolved as that of a merged or of a canonical automaton.
    pub mode: Mode,
}

// The exit of a function drops this value by one call. With the derived destructor it would drop each field.
impl<L: Drop> Drop for TabledAutomatonWith<L> {
    fn drop(self) {
        let TabledAutomatonWith {
            automaton,
            halting,
            conflicts,
            mode: _,
        } = self;
        drop(automaton);
        drop(halting);
        drop(conflicts);
    }
}

/// A `TabledAutomatonWith` whose lookahead sets have `W` words of 64 bits.
pub type TabledAutomaton<const W: usize> = TabledAutomatonWith<TokenSet<W>>;
