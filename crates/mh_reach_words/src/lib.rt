//! What the two searches of `mh_reach` share: words by numbers, each made of earlier ones, in groups that rise with the
//! numbers, so that two words of one group are compared by their numbers alone; spots, which are states with a next
//! token; items that are taken from a queue; and the order of sentences.
#![tactic(auto)]

mod arrivals;
mod book;
mod comparing;
mod numbering;
mod numbers;
mod sorting;
mod spelling;
mod word_parts;
mod writing;

pub use arrivals::StateAndNext;
pub use book::Book;
pub use comparing::{Rests, no_rests};
pub use numbers::{EMPTY, token_before};
pub use sorting::{Order, sorted};
pub use word_parts::{LastPart, WordParts};
