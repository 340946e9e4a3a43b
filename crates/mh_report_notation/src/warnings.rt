//! The line on a conflict, and the warning on a conflict.
ghost use Rattle.std.specs.Prelude.{◌≡◌, ◌++◌, OnOk};
ghost use Rattle.mh_report_notation.specs.Warnings.{conflict_line, conflict_place, warning_line, warning_title};

use crate::items::look_name;
use mh_grammar::{Grammar, Look, Memory};
use mh_grammar_texts::write_between;
use mh_resolve_cells::ConflictKind;
use std::alloc::Global;

#[tactic(auto, unfolding(crate::specs::Warnings::conflict_place))]
fn write_place(text: &mut Vec<u8>, state: u32) -> Result<(), Memory>
    ensures { OnOk result (text.new.items ≡ text.old.items ++ conflict_place state) }
{
    write_between(text, b"conflict in state ", state, b" on ")
}

#[tactic(auto, unfolding(crate::specs::Warnings::warning_title))]
fn write_title(text: &mut Vec<u8>) -> Result<(), Memory>
    ensures { OnOk result (text.new.items ≡ text.old.items ++ warning_title) }
{
    text.extend_from_slice(b"menhir: warning: ")?;
    Ok(())
}

/// Appends the line on a conflict of this kind, or nothing if precedence levels solve the conflict. Fails only if
/// memory runs out; a part of the line may be written then.
pub fn write_conflict(
    text: &mut Vec<u8>,
    grammar: &Grammar,
    state: u32,
    look: Look,
    kind: ConflictKind,
) -> Result<(), Memory>
    ensures { OnOk result (text.new.items ≡ text.old.items
        ++ conflict_line grammar.now state look kind) }
{
    match kind {
        ConflictKind::Solved => Ok(()),
        ConflictKind::Unsolved => {
            write_place(text, state)?;
            text.extend_from_slice(look_name(grammar, look))?;
            text.push(b'\n')?;
            Ok(())
        }
        ConflictKind::Stream => write_between(
            text,
            b"end-of-stream conflict in state ",
            state,
            b"\n",
        ),
    }
}

/// Appends the warning on a conflict of this kind, or nothing if precedence levels solve the conflict. Fails only if
/// memory runs out; a part of the line may be written then.
pub fn write_warning(
    text: &mut Vec<u8>,
    grammar: &Grammar,
    state: u32,
    look: Look,
    kind: ConflictKind,
) -> Result<(), Memory>
    ensures { OnOk result (text.new.items ≡ text.old.items
        ++ warning_line grammar.now state look kind) }
{
    match kind {
        ConflictKind::Solved => {}
        ConflictKind::Unsolved | ConflictKind::Stream => {
            write_title(text)?;
            write_conflict(text, grammar, state, look, kind)?;
        }
    }
    Ok(())
}
