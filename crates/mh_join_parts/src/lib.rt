//! The names of several files, gathered with their meanings; the prelude, which is the rules of Menhir's standard
//! library; and the joined value of several files that have no fault.
#![tactic(auto)]

mod aliases;
mod building;
mod costs;
mod definers;
mod gathering;
mod joined_value;
mod kinds;
mod levels;
mod numbering;
mod prelude;
mod printing;
mod tokens;

pub use gathering::names_of;
pub use joined_value::joined;
pub use prelude::prelude_rules;
