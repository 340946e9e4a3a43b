//! Sentence lines, as in the input and in messages files, and messages files: read with the names of a grammar, or as
//! lines and blocks without a grammar, and written.
#![tactic(auto)]

mod blocks;
mod laws;
mod lexicon;
mod lines;
mod loose;
mod messages;
mod pieces;
mod printing;
mod sentence;

pub use blocks::{LooseBlocks, read_blocks};
pub use laws::{canonical_is_read, printed_again, spaced_is_read, spelled_once};
pub use lexicon::Lexicon;
pub use loose::{LooseEntry, LooseFault, LooseFile, LooseLine, read_loose};
pub use messages::{Entry, MsgFault, MsgFile, MsgSentence, read_messages};
pub use pieces::first_piece;
pub use printing::{echo, print_messages, write_names, write_sentence};
pub use sentence::{SentenceFault, read_sentence};
