//! The computation of a state's actions: its reductions are tallied on all looks, precedence decides each cell, and the
//! default and the reduction for `%on_error_reduce` follow from the cells.
#![tactic(auto)]

mod cells;
mod counting;
mod errors;
mod holes;
mod levels;
mod row;

pub use cells::cell_of;
pub use counting::{shifts_of, tallies_of};
pub use errors::on_error_production;
pub use holes::holes_of;
pub use levels::{compare_on, length_of};
pub use row::{cells_of, default_of, is_stream_conflict};
