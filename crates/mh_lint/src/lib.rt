//! The warnings on an accepted grammar: those on names and attributes in its files, those on files that are named
//! twice, and those on its automaton.
#![tactic(auto)]

mod alternatives;
mod laws;
mod levels;
mod on_error;
mod sources;
mod uses;
mod warning_laws;
mod warning_walk;

pub use laws::{productions_have_sources, sources_give_levels};
pub use mh_lint_faults::{AcceptedFiles, Examined, examine};
pub use mh_lint_findings::{
    Cursor, Finding, FindingText, GrammarFile, Position, finding_at, write_finding,
};
pub use warning_laws::no_line_is_no_warning;
pub use warning_walk::{BuiltGrammar, warnings};
