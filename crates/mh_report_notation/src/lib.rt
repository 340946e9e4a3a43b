//! The notation of items, of conflicts and of warnings on conflicts.
#![tactic(auto)]

mod items;
mod warnings;

pub use items::{look_name, write_item_lines};
pub use warnings::{write_conflict, write_warning};
