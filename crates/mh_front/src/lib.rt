//! The front end: from the modules of a grammar to the grammar.
#![tactic(auto)]

mod fault;
mod front;
mod laws;
mod texts;

pub use fault::GrammarFault;
pub use front::grammar_of;
pub use laws::{grammar_excludes_fault, is_one_fault, is_one_grammar, some_grammar_or_fault};
pub use mh_rules::MAX_TOKENS;
pub use texts::fault_line;
