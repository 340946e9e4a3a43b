//! The definition of table files that are valid for a grammar, its laws, and the tests that need no memory: of the
//! header, of the items of a kernel, of the target of an edge, and of the cells or the default action of a state.
#![tactic(auto)]

mod cells;
mod header;
mod items;
mod laws;
mod names;
mod reason;
mod targets;

pub use cells::{cells_at, count_right, wrong_lines};
pub use header::has_header;
pub use items::{is_end, is_moved};
pub use laws::{valid_is_automaton, valid_is_not_invalid, validity_is_unique, written_is_valid};
pub use names::is_named;
pub use reason::Reason;
pub use targets::is_kernel_within;
