//! The lines that report the states for which one messages file has a message and another has none.
ghost use Rattle.std.specs.Prelude.{◌≡◌, ◌++◌, IfOk, OnOk};
ghost use Rattle.mh_update.specs.MissingStates.{missing_line, missing_lines, missing_state_text};

use mh_grammar::Memory;
use std::alloc::Global;

/// Appends the beginning of the line of a state.
#[tactic(auto, unfolding(crate::specs::MissingStates::missing_state_text))]
fn write_state(alloc: Global, text: &mut Vec<u8>, state: u32) -> Result<(), Memory>
    ensures { OnOk result (text.new.items ≡ text.old.items ++ missing_state_text state) }
{
    let part = format!(in alloc; "menhir: state {state} of ")?;
    text.extend_from_slice(part.as_bytes())?;
    Ok(())
}

/// Appends the line of a state.
#[tactic(auto, unfolding(crate::specs::MissingStates::missing_line))]
fn write_missing(
    alloc: Global,
    text: &mut Vec<u8>,
    left: &[u8],
    right: &[u8],
    state: u32,
) -> Result<(), Memory>
    ensures { OnOk result (text.new.items ≡ text.old.items ++ missing_line left.now right.now state) }
{
    write_state(alloc, text, state)?;
    text.extend_from_slice(left)?;
    text.extend_from_slice(b" is missing in ")?;
    text.extend_from_slice(right)?;
    text.extend_from_slice(b"\n")?;
    Ok(())
}

/// Returns the lines for the error output that report the states for which the file named `left` has a message and the
/// file named `right` has none, one line a state, in order. Fails only if memory runs out.
pub fn missing_text(
    alloc: Global,
    left: &[u8],
    right: &[u8],
    states: &[u32],
) -> Result<Vec<u8>, Memory>
    ensures { IfOk result (λ text. text.items ≡ missing_lines left.now right.now states.now) }
{
    let mut text = Vec::new(alloc);
    for state in states {
        write_missing(alloc, &mut text, left, right, *state)?;
    }
    Ok(text)
}
