//! Sentences that the program makes: the shortest word of each nonterminal of a grammar, least by length, then by the
//! numbers of the tokens; random sentences with at most a given number of tokens; and samples, which are the program's
//! own benchmark: for each number a large valid grammar with sentences, and the counts of how its table parses them.
#![tactic(auto)]

mod chains;
mod counting;
mod improving;
mod laws;
mod making;
mod offers;
mod order;
mod random;
mod random_laws;
mod rows;
mod sentences;
mod shortest;
mod texts;
mod word;
mod writing;

pub use counting::sample_line;
pub use laws::sample_line_is_unique;
pub use making::sample;
pub use random::{RandomFault, random_sentence};
pub use random_laws::{random_sentence_is_sentence, random_sentence_is_unique};
pub use sentences::{random_text, shortest_text};
pub use shortest::shortest_words;
pub use texts::{SENTENCES, Sample, sample_grammar};
pub use word::{MAX_WORD, Shortest, TokenWord};
