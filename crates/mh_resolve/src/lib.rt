//! The table of an automaton, with conflicts resolved by precedence, and the list of its conflicts.
#![tactic(auto)]

mod found;
mod resolution;
mod states;

pub use mh_resolve_cells::{Conflict, ConflictKind, Mode};
pub use resolution::{
    Resolution, conflicts_are_complete, conflicts_are_raw, conflicts_are_unique, resolve,
    resolve_one, resolve_states, table_acts, table_is_unique,
};
