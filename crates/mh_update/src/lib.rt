//! Brings a messages file up to date after a change of its grammar: the comment lines of its sentences are made anew,
//! and all other lines stay. Also the report on the states that one of two messages files lacks.
#![tactic(auto)]

mod comment;
mod comments;
mod laws;
mod texts;
mod updating;

pub use laws::{updated_again, updated_or_unfit};
pub use mh_msgfile::echo;
pub use texts::missing_text;
pub use updating::update;
