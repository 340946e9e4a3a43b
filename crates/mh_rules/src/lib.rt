//! The rules of a grammar at each stage: as modules spell them, as joined rules, and as instances. The crates of the
//! stages depend on these types, and not on each other.
#![tactic(auto)]

mod instances;
mod joined;
mod modules;

pub use instances::{Expanded, Instance, InstanceProduction, MAX_INSTANCES, Part};
pub use joined::{Applied, Head, Joined, JoinedAlternative, JoinedRule, MAX_TOKENS, Prec};
pub use modules::{Actual, Alternative, LevelDecl, MAX_DEPTH, Module, Ref, Rule, TokenDecl};
