//! Shared syntax trees: their height, their tokens and their text.
#![tactic(auto)]

mod text;
mod tokens;
mod tree;

pub use text::print_tree;
pub use tokens::yield_of;
pub use tree::{Tree, can_be_children, leaf, node};
