//! The catalogue of a table (Pottier 2016): a row for each state in which a sentence fails, with the first sentence
//! that fails there.
#![tactic(auto)]

mod gathering;
mod making;
mod rows;

pub use making::catalogue;
pub use rows::{CatalogueFault, Row};
