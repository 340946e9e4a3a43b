//! Validates table files for a grammar. The kernels of a file are read by their names, its edges are compared with the
//! moves of these kernels, and its cells with those that conflict resolution gives.
#![tactic(auto)]

mod edges;
mod fault;
mod items;
mod kernels;
mod laws;
mod looks;
mod rows;
mod validation;

pub use fault::ValidFault;
pub use laws::is_valid_or_invalid;
pub use mh_validate_valid::Reason;
pub use validation::{Valid, validate};
