//! The command line: its options and jobs, and the order that the words spell.
#![tactic(auto)]

mod clap_result;
mod command;
mod jobs;
mod laws;
mod modes;
mod numbers;
mod order;
mod repeated_option;
mod words;

pub use jobs::Job;
pub use laws::{files_are_words, options_are_words, too_often_is_no_order};
pub use numbers::MAX_LENGTH;
pub use order::{Order, UsageFault};
pub use words::read_words;
