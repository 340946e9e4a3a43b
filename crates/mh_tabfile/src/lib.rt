//! Table files: their content, read and written. They are read in `mh_tabfile_read` and written here; the laws say that
//! what is written is read again.
#![tactic(auto)]

mod laws;
mod writing;
mod writing_law;

pub use laws::{file_or_bad_line, versions_agree, written_again};
pub use mh_tabfile_form::{
    Names, RawCell, RawCells, RawEdge, RawItem, RawProduction, RawState, RawTable,
};
pub use mh_tabfile_read::{TabFault, content_is_unique, fault_is_unique, read_tables};
pub use writing::write_tables;
pub use writing_law::written_is_file;
