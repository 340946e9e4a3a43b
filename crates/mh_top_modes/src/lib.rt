//! The modes that make no catalogue: verdicts and sessions on the lines of the input, the entry of the first line, the
//! automaton as text and as a table file, the four modes on messages files, and the two modes on sentences of the
//! grammar.
#![tactic(auto)]

mod comparing;
mod explaining;
mod exporting;
mod file_texts;
mod judge;
mod judging;
mod sentences;
mod serving;
mod showing;
mod updating;

pub use comparing::compare_errors;
pub use explaining::explain;
pub use exporting::TableFile;
pub use file_texts::{FileText, text_from_file};
pub use judging::interpret;
pub use sentences::{RandomSentence, ShortestWords};
pub use serving::run_session;
pub use showing::AutomatonText;
