//! The name that a reply begins with.
ghost use Rattle.std.specs.Prelude.{◌≡◌};
ghost use Rattle.mh_session_branches.specs.Replies.{replied_name as replying_of};

use mh_session_branches::Command;

/// The name that a reply begins with: for a fork the fresh name, else the name in the command.
pub(crate) fn replying(command: &Command) -> &[u8]
    ensures { result.now ≡ replying_of command.now }
{
    match command {
        Command::Begin { name, .. } => name.as_slice(),
        Command::Offer { name, .. } => name.as_slice(),
        Command::Feed { name, .. } => name.as_slice(),
        Command::Resume { name } => name.as_slice(),
        Command::Fork { fresh, .. } => fresh.as_slice(),
        Command::Show { name } => name.as_slice(),
        Command::Stack { name } => name.as_slice(),
        Command::Tree { name } => name.as_slice(),
        Command::Expected { name } => name.as_slice(),
        Command::Forget { name } => name.as_slice(),
    }
}
