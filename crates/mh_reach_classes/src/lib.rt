//! Token classes of states: the reductions that lead to each state, and the classes of tokens that those reductions
//! treat alike.
#![tactic(auto)]

mod leading_reductions;
mod token_classes;

pub use token_classes::classes_of;
