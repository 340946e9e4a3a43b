//! The lexemes of a grammar file.
#![tactic(auto)]

mod code;
mod items;
mod kinds;
mod laws;
mod lexeme_starts;
mod scanning;

pub use kinds::{Kind, Lexeme, PlacedFault, SyntaxFault};
pub use laws::{
    code_is_taken, lexed_always, lexed_code, lexed_texts, lexemes_are_unique,
    spaced_texts_are_lexemes,
};
pub use mh_lex_bytes::{Keyword, is_word, keyword_of, keywords_differ, line_of};
pub use scanning::{lex, lex_placed};
