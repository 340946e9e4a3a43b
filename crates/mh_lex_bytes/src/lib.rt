//! The parts of lexing that look at single bytes and words: the classes of bytes, the keywords, and the line of a
//! position.
#![tactic(auto)]

mod bytes;
mod keywords;
mod laws;
mod lines;
mod words;

pub use bytes::{continues_word, has_byte, is_blank_byte, starts_arrow, starts_word};
pub use keywords::{Keyword, KeywordRow, keyword_of};
pub use laws::keywords_differ;
pub use lines::line_of;
pub use words::is_word;
