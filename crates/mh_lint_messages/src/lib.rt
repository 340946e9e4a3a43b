//! Says everything that is wrong with a messages file in one text.
#![tactic(auto)]

mod errors;
mod laws;
mod lines;

pub use errors::{ErrorsFault, error_lines};
pub use laws::{error_text_is_unique, nothing_is_written};
