//! Laws that definitions are total: no words and files lack a work that is asked for, and no such work lacks an
//! outcome. So no clause that speaks of each work, or of each outcome of a work, is empty.
#![tactic(auto)]

mod laws;

pub use laws::{every_work_has_an_outcome, no_work_is_lacking};
