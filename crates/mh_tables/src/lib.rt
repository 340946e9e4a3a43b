//! The test that every run on a table ends: it finds that no relative run makes too many reductions, or the first
//! relative run that does. A relative run makes reductions only, with one next token or none. It begins with a start
//! state alone, or with a state and a target of its edges above it, and does not remove the lowest state.
#![tactic(auto)]

mod bounds;
mod checking;
mod laws;
mod relative_runs;

pub use checking::{HaltFault, check_halts};
pub use laws::halts_or_loops;
pub use mh_tables_core::{
    Action, Fallback, Halting, MAX_REDUCTIONS, NextAction, Place, StateParts, Table, choose,
    halting_of, table_of,
};
