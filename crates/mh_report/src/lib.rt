//! Texts for users: the automaton with its table, the warnings on conflicts, and the comment lines and the whole entry
//! of a sentence that fails.
#![tactic(auto)]

mod automata;
mod laws;
mod lines;
mod warnings;

pub use automata::{automaton_text, mode_name};
pub use laws::{entry_is_unique, known_suffix_is_unique};
pub use lines::{Commenter, comment_lines, write_comments, write_expected};
pub use mh_grammar_texts::write_number;
pub use mh_report_notation::look_name;
pub use warnings::warning_text;
