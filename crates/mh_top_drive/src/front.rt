//! The order and the grammar: all that is known before the table is made.
use mh_grammar::Grammar;
use mh_opts::Order;

/// The order that the words of the command line spell, and the grammar of its modules.
#[derive(Drop)]
pub struct OrderAndGrammar {
    pub order: Order,
    pub grammar: Grammar,
}
