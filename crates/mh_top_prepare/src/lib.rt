//! The last stages before a mode: the automaton of the grammar, which is built or taken from a table file, and its
//! table, on which every run must end; the refusals of grammars without a table; and the texts on err: the warnings on
//! conflicts, which refuse the grammar under `--strict`, and the last line, which says why the work stopped.
#![tactic(auto)]

mod halting;
mod invalid_file;
mod last_line;
mod looping;
mod prepared;
mod refusing;
mod sources;
mod table_file;
mod tabled;
mod warning;

pub use last_line::report;
pub use prepared::prepare;
pub use sources::AutomatonSource;
pub use warning::{is_refused, warn};
