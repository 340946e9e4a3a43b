//! The first stages of the work: from the words of the command line and the grammar files to the order and its grammar.
#![tactic(auto)]

mod front;
mod grammar;
mod grammar_file;
mod modules;
mod order;

pub use front::with_grammar;
pub use order::order_in;
