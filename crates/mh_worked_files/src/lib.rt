//! Worked examples of files, lines and words: devices (also real ones), lexemes, modules, sentence lines, messages
//! files and the words of the command line; and of what is made of grammar files: joined rules, instances, inlined
//! grammars, and the grammars of the whole front end. Each result was worked out by hand.
#![tactic(auto)]

#[cfg(test)]
mod cases;
#[cfg(test)]
mod devices;
#[cfg(test)]
mod expanding;
mod filling;
#[cfg(test)]
mod fronts;
#[cfg(test)]
mod inlining;
#[cfg(test)]
mod joining;
#[cfg(test)]
mod lexemes;
#[cfg(test)]
mod lines;
#[cfg(test)]
mod messages;
#[cfg(test)]
mod modules;
mod one_sentence;
#[cfg(test)]
mod places;
#[cfg(test)]
mod real_devices;
#[cfg(test)]
mod words;

pub use filling::{filled, put};
pub use one_sentence::{ONE_SENTENCE, ONE_SENTENCE_TABLE};
