//! The texts of numbers, symbols and productions, which several crates write.
#![tactic(auto)]

mod numbers;
mod productions;

pub use numbers::{write_between, write_number};
pub use productions::{write_before, write_names, write_production, write_sides};
