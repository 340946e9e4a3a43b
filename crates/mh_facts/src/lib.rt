//! The facts of the search for failing sentences: a map from paths to costs, each with the facts that it was derived
//! from.
//!
//! The specifications define the derivations of facts, the orders of words and of sentences, and when the sentences of
//! the second search are closed under its rules. The law says that the rules refuse exactly the sentences that fail.
//!
//! The crate also has the parts that both searches share: goto facts, classes of tokens, the productions by their left
//! sides, sums of costs, the queue by cost, and a map that keeps the order of insertion.
#![tactic(auto)]

mod classes;
mod costs;
mod goto_fact;
mod laws;
mod left_sides;
mod ordered_map;
pub mod queue;
mod store;

pub use classes::{TokenClass, TokenClasses, class_of, representatives_of};
pub use costs::{CAP, add_costs, add_token};
pub use goto_fact::GotoFact;
pub use laws::failures_are_reached;
pub use left_sides::{ByLeftSide, by_left_side, productions_of};
pub use ordered_map::OrderedMap;
pub use store::{Back, Fact, FactKey, FactStore};
