//! Joins the files of a grammar: names are resolved, public rules of one name are joined, and the prelude is added.
#![tactic(auto)]

mod checking;
mod joining;
mod laws;

pub use joining::{join, join_named};
pub use laws::{is_one_fault, is_one_joined, joined_excludes_fault};
pub use mh_join_names::JoinFault;
pub use mh_join_parts::prelude_rules;
pub use mh_rules::{Applied, Head, Joined, JoinedAlternative, JoinedRule, Prec};
