//! Unfoldings, which are the results of replacing inline producers by their alternatives: their order, their `%prec`,
//! their sizes and the limits of these. Tests for inline producers, and the order of files.
#![tactic(auto)]

mod choices;
mod double_ended;
mod inlined;
mod instances;
mod ranks;
mod sizes;
mod unfolding;

pub use choices::{
    add_own, just_nothing, put_after, put_in_front, put_part, rightmost_prec, with_own,
};
pub use inlined::inlined_in;
pub use instances::{inline_part, is_inline};
pub use ranks::rank;
pub use sizes::{MAX_PRODUCTIONS, MAX_SYMBOLS, Size, SizeTable, is_small, plus};
pub use unfolding::Unfolding;
