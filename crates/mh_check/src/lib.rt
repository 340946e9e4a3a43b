//! Messages files checked against a table and compiled: each sentence fails at its last token, and no two fail in the
//! same state.
#![tactic(auto)]

mod compiled;
mod compiling;
mod laws;
mod places;
mod texts;

pub use compiled::{Compiled, compare};
pub use compiling::{CheckFault, compile};
pub use laws::checked_once;
pub use places::failing_state;
pub use texts::{
    check_fault_line, compiled_text, ending_text, file_fault_line, write_early, write_shared,
};
