//! Rests of paths: the rules by which the first search of `mh_reach` can find the goto facts of a table from the ends
//! of the right sides to their beginnings. Most paths that begin in different states meet after their first symbol,
//! so there are far fewer rests than beginnings of paths.
//!
//! The crate has the rules, laws that they derive exactly the complete paths of `mh_facts` and that words which are
//! closed under the rules have a least word for each goto fact, and the search that finds these words.
#![tactic(auto)]

mod begins;
mod conclusions;
mod joins;
mod laws;
mod numbering;
mod rows;
mod settled;
mod settling;
mod sought;
mod sources;
mod waiting;

pub use laws::{gotos_are_found, rests_are_paths};
pub use numbering::RestBook;
pub use rows::empty_rows;
pub use settled::{SettledWord, SettledWords, word_of_goto};
pub use settling::{RestsFound, search};
pub use sought::Sought;
pub use waiting::{Origin, RestData, SettledGoto, SettledRest, WaitingWord};
