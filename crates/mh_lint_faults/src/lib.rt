//! The front end with the places of names: the results of all its stages if the grammar is accepted, and otherwise the
//! faults at their places: the first syntax fault of each file; else all faults of names; else the first later fault.
#![tactic(auto)]

mod arity;
mod definitions;
mod front;
mod keys;
mod laws;
mod name_faults;
mod reading;
mod terms;

pub use definitions::rule_at;
pub use front::{AcceptedFiles, Examined, examine};
pub use keys::{has_key, put_key};
pub use laws::{files_are_examined_once, join_faults_have_lines};
pub use name_faults::{FileNames, file_names, text_of};
pub use reading::ReadFiles;
pub use terms::write_term;
