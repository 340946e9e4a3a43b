//! The mode `--check`: it writes the faults of the grammar files, or the warnings on an accepted grammar. Unlike the
//! other modes, it does not stop at the first fault. (`--check-errors` is in `checking` of `mh_top_lists`.)
#![tactic(auto)]

mod checking;
mod writing;

pub use checking::check_grammar;
