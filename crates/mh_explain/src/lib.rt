//! Explanations of conflicts: for each conflict that precedence levels do not solve, the first sentence that runs into
//! the conflict, the actions between which the state must choose, and the action that the table takes.
#![tactic(auto)]

mod actions;
mod explanations;
mod first_sentence;

pub use explanations::explanation_text;
pub use first_sentence::FoundSentence;
