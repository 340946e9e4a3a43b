//! The reasons why a session line is no command.
ghost use Rattle.std.specs.Prelude.{◌≡◌};
ghost use Rattle.mh_session_branches.specs.declared.fault.CommandFault.TheVariants.{Memory as Memory'};

use mh_grammar::{Memory, Name};

/// The reason why a session line is no command.
#[derive(Drop)]
pub enum CommandFault {
    /// The line has none of the forms of a command.
    Unreadable,
    /// No start symbol has this name.
    UnknownStart { name: Name },
    /// The line names no start, and the grammar has none or several.
    MissingStart,
    /// No token has this name.
    UnknownToken { name: Name },
    /// Memory ran out.
    Memory,
}

impl From<Memory> for CommandFault {
    ghost from_gives = { λ _ fault. fault ≡ Memory' };

    fn from(_: Memory) -> Self {
        CommandFault::Memory
    }
}
