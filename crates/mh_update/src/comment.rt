//! The comments of sentences in messages files.
use mh_grammar::Sequence;

/// The comment lines that follow the line of a sentence.
#[derive(Drop)]
pub struct Comment {
    /// The number of the line of the sentence, from 1.
    pub line: u32,
    pub text: Sequence<u8>,
}
