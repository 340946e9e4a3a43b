//! The reader of grammar files, and the text of a module, from which the module can be read again.
#![tactic(auto)]

mod laws;
mod printing;

pub use laws::module_or_syntax_error;
pub use mh_lex::SyntaxFault;
pub use mh_reader_parser::{
    Actual, Alternative, LevelDecl, Module, Ref, Rule, TokenDecl, cost_is_spelled, line_once,
    spelled_once,
};
pub use mh_reader_places::{Mention, PlacedFault, PlacedModule, Role, read_module, read_placed};
pub use printing::print_module;
