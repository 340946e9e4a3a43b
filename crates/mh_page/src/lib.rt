//! The whole program as one call over words, files and an input in memory, for callers in other languages.
#![tactic(auto)]

mod call;
mod file_list;
mod input;
mod laws;
mod request;
mod room_sink;
mod rooms;
mod whole_text;

pub use call::run_in_memory;
pub use laws::{answers_are_unique, no_device_fails, runs_keep_the_promises};
pub use request::{PageFile, Request};
