//! Reading table files: the content that a file spells, or its first bad line.
#![tactic(auto)]

mod advance;
mod laws;
mod lines;
mod numbers;
mod places;
mod reading;
mod words;

pub use laws::{content_is_unique, fault_is_unique};
pub use reading::{TabFault, read_tables};
