//! Table files by names: the types of their content, their form, and the content for an automaton with its table.
#![tactic(auto)]

mod names;
mod types;

pub use names::Names;
pub use types::{RawCell, RawCells, RawEdge, RawItem, RawProduction, RawState, RawTable};
