//! The second search of `mh_reach`, over the goto facts of `mh_reach_rests`: the least sentence by which each state is
//! reached with each next token. A state with a next token is a spot, and a way to reach it is an arrival.
//!
//! Sentences are words of the book in which the first search has numbered its words: the number of the start comes
//! first, and the tokens follow. Sentences of one cost are one group of the book, so they are compared by numbers.
#![tactic(auto)]

mod arriving;
mod goto_rows;
mod levels;
mod numbering;
mod spots;
mod steps;
mod waiting;

pub use arriving::arrive;
pub use spots::{SpotArrival, Spots, arrival_at};
