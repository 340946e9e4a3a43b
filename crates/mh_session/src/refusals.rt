//! The texts that answer lines that are no commands.
ghost use Rattle.std.specs.Prelude.{◌≡◌, ◌++◌, codes, IfOk};
ghost use Rattle.mh_session.specs.code.AnswerTexts.{IsCommandFaultText};

use mh_grammar::Memory;
use mh_session_branches::CommandFault;
use std::alloc::Global;

/// The given words, a name and a line feed.
fn error_on(alloc: Global, words: &[u8], name: &[u8]) -> Result<Vec<u8>, Memory>
    ensures { IfOk result (λ text. text.items ≡ words.now ++ name.now ++ codes "\n") }
{
    let mut text = words.to_vec(alloc)?;
    text.extend_from_slice(name)?;
    text.push(b'\n')?;
    Ok(text)
}

/// The text that answers a line with the given fault. Fails if memory runs out, or if the given fault is `Memory`,
/// which has no text.
pub(crate) fn command_refusal(alloc: Global, fault: &CommandFault) -> Result<Vec<u8>, Memory>
    ensures { IfOk result (λ text. IsCommandFaultText fault.now text.items) }
{
    match fault {
        CommandFault::Unreadable => Ok(b"error: unreadable\n".to_vec(alloc)?),
        CommandFault::UnknownStart { name } => {
            error_on(alloc, b"error: unknown start ", name.as_slice())
        }
        CommandFault::MissingStart => Ok(b"error: missing start\n".to_vec(alloc)?),
        CommandFault::UnknownToken { name } => {
            error_on(alloc, b"error: unknown token ", name.as_slice())
        }
        CommandFault::Memory => Err(Memory),
    }
}
