//! Sessions: named branches of runs of one table, controlled line by line.
//!
//! A line is read as a command, the session executes the command, and the text of its reply or fault answers the line.
#![tactic(auto)]

mod answering;
mod naming;
mod reading;
mod refusals;
mod run;
mod session;
mod texts;

pub use answering::answer_line;
pub use mh_session_branches::{
    Command, CommandFault, Reply, SessionFault, one_answer, others_stay,
};
pub use reading::read_command;
pub use run::answer_all;
pub use session::Session;
