//! The plain grammar: its types, and the definitions that all crates above share, namely derivations, FIRST, sets of
//! LR(1) items and breadth-first numbering.
//!
//! The crate also computes which nonterminals derive the empty word, which derive a word at all, and FIRST of each; and
//! it tests whether the numbers and the costs of a grammar are in range.
#![tactic(auto)]

mod edges;
mod firsts;
mod grid;
mod laws;
mod marks;
mod name;
mod names;
mod range;
mod sequence;
mod types;
mod worklist;

pub use edges::{Edge, find_edge};
pub use firsts::first;
pub use laws::words_begin_with_first;
pub use marks::{nullable, productive};
pub use name::{Name, from_bytes};
pub use names::{left_side_name, nonterminal_name, start_name, symbol_name, token_name};
pub use range::{has_costs_in_range, is_in_range};
pub use sequence::Sequence;
pub use types::{
    Assoc, Grammar, Level, Look, MAX_COST, MAX_HEIGHT, MAX_NUMBERED, Memory, NontermInfo,
    Production, Sentence, Symbol, Token, TokenInfo, lost,
};
pub use worklist::users_of;
