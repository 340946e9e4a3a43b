//! Grammars from short texts, with their automata and tables, and cases that ask about such a grammar.
#![tactic(auto)]

mod cases;
mod facts;
mod made;
mod names;

pub use cases::{Questions, check, check_cases, put, put_bytes, put_comma};
pub use facts::{automaton_of, is_small, table_of};
pub use made::{canonical_of, grammar_of, halting_of, resolved};
pub use names::are_apart;
