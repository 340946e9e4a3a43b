//! Expected tokens: if a run asks for one more token, the tokens that the run would shift next.
#![tactic(auto)]

mod checkpoint;
mod overlay;
mod sentence;
mod settle;
mod token_list;
mod trial;

pub use checkpoint::expected_at;
pub use sentence::expected;
pub use token_list::TokenList;
