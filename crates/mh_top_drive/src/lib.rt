//! What all parts of the tool share: the reasons to stop early with their exit statuses, the reading of files from the
//! shelf, the running of a mode over the input and out, and the values that are made before a mode begins: the order
//! with its grammar, and then also with its table.
#![tactic(auto)]

mod driving;
mod files;
mod front;
mod prepared;
pub mod status;
mod stop;
mod tabled;

pub use driving::{Asks, LINE_LIMIT, MAX_LINES, Mode, drive, drive_opened, write_text};
pub use files::{FILE_LIMIT, FileFormat, read_file, read_files};
pub use front::OrderAndGrammar;
pub use prepared::{Prepared, PreparedWith};
pub use stop::{Cause, Stop, joined, refusal, refused};
pub use tabled::{TabledAutomaton, TabledAutomatonWith};
