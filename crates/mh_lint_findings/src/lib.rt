//! Findings on the files of a grammar, and the lines that report findings with their places.
#![tactic(auto)]

mod cursor;
mod finding_text;
mod findings;
mod lines;

pub use cursor::Cursor;
pub use finding_text::FindingText;
pub use findings::{Finding, GrammarFile, Position, finding_at};
pub use lines::write_finding;
