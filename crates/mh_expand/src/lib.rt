//! Expands joined rules to the instances that the start symbols reach, with each formal replaced by its actual.
#![tactic(auto)]

mod applications;
mod expansion;
mod fault;
mod laws;
mod ranks;
mod replacing;
mod search;
mod terms;
mod texts;

pub use expansion::expand;
pub use fault::ExpandFault;
pub use laws::{is_one_expansion, is_one_fault};
pub use mh_rules::{Expanded, Instance, InstanceProduction, Part};
