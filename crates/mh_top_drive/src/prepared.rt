//! The order, the grammar and the table, which each mode gets.
use crate::tabled::TabledAutomatonWith;
use mh_grammar::Grammar;
use mh_opts::Order;
use mh_sets::TokenSet;

/// The order that the words of the command line spell, the grammar of its modules, and the table of this grammar. `L`
/// is the type of lookahead sets.
pub struct PreparedWith<L> {
    pub order: Order,
    pub grammar: Grammar,
    pub tabled: TabledAutomatonWith<L>,
}

// The exit of a function drops this value by one call. With the derived destructor it would drop each field.
impl<L: Drop> Drop for PreparedWith<L> {
    fn drop(self) {
        let PreparedWith {
            order,
            grammar,
            tabled,
        } = self;
        drop(order);
        drop(grammar);
        drop(tabled);
    }
}

/// A `PreparedWith` whose lookahead sets have `W` words of 64 bits.
pub type Prepared<const W: usize> = PreparedWith<TokenSet<W>>;
