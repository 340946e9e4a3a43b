//! Messages files checked against a table and compiled.
ghost use Rattle.std.specs.Prelude.{◌≡◌, length, map, IfOk};
ghost use Rattle.mh_msgfile.specs.Messages.{AreSentencesOf};
ghost use Rattle.mh_check.specs.Compiling.{Compiles};

use crate::compiled::{Compiled, compiled_of};
use crate::places::place_file;
use mh_grammar::{Memory, Sequence};
use mh_msgfile::{Entry, MsgFile};
use mh_run::Verdict;
use mh_tables_core::Halting;
use std::alloc::Global;

/// The reason why a messages file does not fit a table: the fault of the first sentence, in order of lines, that breaks
/// soundness. Lines are numbered from 1.
#[derive(Drop)]
pub enum CheckFault {
    /// The run of the sentence of this line ends with this verdict, which is no refusal.
    NotRefused { line: u32, verdict: Verdict },
    /// The sentence of this line is refused at the token with this index, from 0, which is not its last token.
    RefusedEarly { line: u32, at: u32 },
    /// The sentence of line `second` fails in the same state as the earlier sentence of line `first`.
    SharedState { first: u32, second: u32, state: u32 },
    /// Memory ran out.
    Memory,
}

/// The messages of all entries, in order.
fn copied_messages(alloc: Global, entries: &[Entry]) -> Result<Vec<Sequence<u8>>, Memory>
    ensures { IfOk result (λ messages. messages.items ≡ map (λ entry. entry.message) entries.now) }
{
    let mut messages = Vec::new(alloc);
    for entry in entries {
        let message = Vec::from_slice(alloc, entry.message.as_slice())?;
        messages.push(Sequence::from_vec(message))?;
    }
    Ok(messages)
}

/// Compiles a messages file: returns the messages by the states in which the sentences fail, if each sentence fails at
/// its last token and no two fail in the same state; else the fault of the first sentence, in order, that breaks this.
/// Fails with `Memory` only if memory runs out.
pub fn compile(alloc: Global, table: &Halting, file: &MsgFile) -> Result<Compiled, CheckFault>
    requires known { AreSentencesOf (length table.now.grammar.starts) table.now.grammar.tokens file.now }
    ensures { Compiles table.now file.now result }
{
    // The table has at most 2^32 states.
    let _facts = table.table();
    let places = match place_file(alloc, table, file.entries.as_slice()) {
        Ok(places) => places,
        Err(fault) => return Err(fault),
    };
    match copied_messages(alloc, file.entries.as_slice()) {
        Ok(messages) => Ok(compiled_of(places, messages)),
        Err(Memory) => Err(CheckFault::Memory),
    }
}
