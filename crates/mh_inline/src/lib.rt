//! Replaces inline producers by their alternatives and numbers the remaining instances, which gives the grammar.
//!
//! The work has these parts. A search of the inline instances finds an order in which each comes after those that it
//! uses, the first that reaches itself, and the number of unfoldings of each. The unfoldings of each inline instance
//! are made from those of the instances that it uses, and are dropped, or moved, at their last use. The instances that
//! are not inline become the nonterminals, and their alternatives are sorted by the order of their productions.
#![tactic(auto)]

mod cycles;
mod depth;
mod fault;
mod inlining;
mod laws;
mod moving;
mod nonterminals;
mod origins;
mod productions;
mod ranks;
mod sizes;
mod unfoldings;
mod uses;

pub use fault::InlineFault;
pub use inlining::inline_rules;
pub use laws::{grammar_excludes_fault, is_one_fault, is_one_grammar};
