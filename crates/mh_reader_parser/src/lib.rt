//! The parser of grammar files: lexemes as token kinds, the states of the parser, and its steps through declarations,
//! rules and actuals.
#![tactic(auto)]

mod actuals;
mod advance;
mod costs;
mod declarations;
mod laws;
mod parser_states;
mod reading;
mod rules;
mod stack;
mod token_kinds;

pub use costs::cost_of;
pub use laws::{cost_is_spelled, line_once, spelled_once};
pub use mh_rules::{Actual, Alternative, LevelDecl, Module, Ref, Rule, TokenDecl};
pub use reading::read_lexemes;
pub use token_kinds::{TokenKind, content_of, token_kind_of};
