//! The refusals of grammars without an automaton: too many states, or a table file that is not valid.
ghost use Rattle.std.specs.Prelude.{◌≡◌, IfOk, string_bytes};
ghost use Rattle.mh_top_drive.specs.code.StageCalls.{StopsWith};
ghost use Rattle.mh_top_drive.specs.declared.stop.Cause.TheVariants.{Refused};
ghost use Rattle.mh_top_prepare.specs.TableTexts.{invalid_line, reason_name as reason_name_of, test_text, too_many_states as too_many_states_line};

use mh_top_drive::{Stop, refused};
use mh_validate_valid::Reason;
use std::alloc::{AllocError, Global};

/// The refusal of a grammar whose automaton has too many states.
pub(crate) fn too_many_states(alloc: Global) -> Stop
    ensures { StopsWith (Refused too_many_states_line) result }
{
    refused(alloc, b"menhir: too many states\n", b"", b"")
}

/// The name of a test of table files.
fn reason_name(reason: Reason) -> &'static str
    ensures { result.now ≡ reason_name_of reason }
{
    match reason {
        Reason::Header => "header",
        Reason::States => "states",
        Reason::Kernel => "kernel",
        Reason::Edge => "edge",
        Reason::Cell => "cell",
        Reason::Fallback => "fallback",
    }
}

/// The part of the refusal after the name of the file.
fn test_in(alloc: Global, state: Option<u32>, reason: &str) -> Result<String, AllocError>
    ensures { IfOk result (λ text. string_bytes text ≡ test_text state reason.now) }
{
    match state {
        None => format!(in alloc; ": invalid: {reason}\n"),
        Some(state) => format!(in alloc; ": invalid: state {state}: {reason}\n"),
    }
}

/// The refusal of a table file that is not valid, with the first test that fails and its state, if it is a test of a
/// state.
pub(crate) fn invalid(alloc: Global, name: &[u8], state: Option<u32>, reason: Reason) -> Stop
    ensures { StopsWith (Refused (invalid_line name.now state reason)) result }
{
    match test_in(alloc, state, reason_name(reason)) {
        Ok(test) => refused(alloc, b"menhir: ", name, test.as_bytes()),
        Err(_) => Stop::OutOfMemory,
    }
}
