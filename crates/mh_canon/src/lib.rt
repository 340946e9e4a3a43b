//! Knuth's canonical collection of LR(1) item sets (Knuth 1965), numbered breadth-first: its definition and laws, the
//! upper bound of the number of states, and the call that builds it.
#![tactic(auto)]

mod collection;
mod kernel_set;
mod laws;
mod limits;
mod uniqueness;

pub use collection::canonical;
pub use laws::some_canonical;
pub use limits::{MAX_STATES, number};
pub use uniqueness::is_one_automaton;
