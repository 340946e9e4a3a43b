//! The list of conflicts, state by state.
ghost use Rattle.std.specs.Prelude.{◌≡◌, ◌<◌, ◌^◌, ◌++◌, length, OnOk, OnErr};
ghost use Rattle.mh_resolve_cells.specs.code.ConflictList.{found_on, row_conflicts};

use crate::states::CellRow;
use mh_grammar::{Look, Memory};
use mh_resolve_cells::{Conflict, ConflictKind};

fn add_found(
    conflicts: &mut Vec<Conflict>,
    state: u32,
    look: Look,
    kind: Option<ConflictKind>,
) -> Result<(), Memory>
    ensures { OnOk result (conflicts.new.items ≡ conflicts.old.items ++ found_on state look kind) }
{
    match kind {
        Some(kind) => match conflicts.push(Conflict { state, look, kind }) {
            Ok(()) => Ok(()),
            Err(_) => Err(Memory),
        },
        None => Ok(()),
    }
}

fn stream_kind(stream: bool) -> Option<ConflictKind>
    ensures { result ≡ Rattle.mh_resolve_cells.specs.code.ConflictList.stream_kind stream }
{
    if stream {
        Some(ConflictKind::Stream)
    } else {
        None
    }
}

/// Appends the conflicts of a state: first those on tokens, then that between actions at the end of the stream, and
/// last the conflict of the action at the end of the stream with an action on a token.
pub(crate) fn add_conflicts(
    conflicts: &mut Vec<Conflict>,
    state: u32,
    row: &CellRow,
) -> Result<(), Memory>
    requires { length row.now.cells < 2 ^ 16 }
    ensures { OnOk result (conflicts.new.items ≡ conflicts.old.items ++ row_conflicts state row.now.cells row.now.last row.now.stream) }
{
    for token in 0..row.cells.len() {
        let kind = row.cells[token].kind;
        add_found(conflicts, state, Look::Token(token as u16), kind)?;
    }
    add_found(conflicts, state, Look::End, row.last.kind)?;
    add_found(conflicts, state, Look::End, stream_kind(row.stream))?;
    Ok(())
}
