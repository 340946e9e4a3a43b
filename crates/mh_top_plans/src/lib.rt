//! What the modes share: plans, which are modes as plain data (in specs), the modes that write only at their end, and
//! the reading of messages files.
#![tactic(auto)]

mod at_end;
mod messages;

pub use at_end::{FinalText, Writer, write_at_end, write_final, write_made, written};
pub use messages::{
    no_fit, read_examined_file, read_loose_file, read_messages_file, read_spelled_file,
};
