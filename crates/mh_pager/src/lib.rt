//! Pager's merged automaton (Pager 1977): its definition and laws, the parts of a step (Pager's condition, the search
//! for the target of a move, the queue of states), and the call that builds it. A worklist of states grows until each
//! state has its edges, and then the states that the starts reach are renumbered.
#![tactic(auto)]

mod compatible;
mod construction;
mod existence;
mod finding;
mod index;
mod laws;
mod merging;
mod numbering;
mod queue;
mod starts;
mod stepping;
mod unions;
mod worklist;

pub use existence::some_merged;
pub use finding::weakly_compatible;
pub use laws::{covers_canonical_paths, is_one_merged, merging_adds_no_conflict};
pub use merging::merged;
