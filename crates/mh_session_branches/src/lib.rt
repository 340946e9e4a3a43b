//! The commands of sessions and their answers: the types, and the definitions on named branches of runs of one table.
//!
//! The definitions give the meaning of each line and its answer, computed from the histories of the branches. A law
//! says that this answer is unique.
#![tactic(auto)]

mod command;
mod fault;
mod laws;
mod reply;

pub use command::Command;
pub use fault::CommandFault;
pub use laws::{one_answer, others_stay};
pub use reply::{Reply, SessionFault};
