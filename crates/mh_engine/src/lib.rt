//! The parser as immutable checkpoints of a run, whose stacks share their cells; and runs of sentences that give trees.
#![tactic(auto)]

mod checkpoint;
mod fault;
mod feeding;
mod phase;
mod reductions;
mod sentence;
mod stack;
mod symbols;

pub use checkpoint::{Checkpoint, begin};
pub use fault::ResumeFault;
pub use feeding::Fed;
pub use phase::Phase;
pub use sentence::{TreeOutcome, run_with_trees};
