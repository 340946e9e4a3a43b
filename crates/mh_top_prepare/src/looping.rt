//! The refusal of a table on which a relative run makes more than 10,000 reductions. A relative run makes reductions
//! from a start state alone, or above a state as long as this state is not removed.
ghost use Rattle.std.specs.Prelude.{◌≡◌, ◌<◌, length, IfOk, string_bytes, MatchOption, ⊤};
ghost use Rattle.mh_top_drive.specs.code.StageCalls.{StopsWith};
ghost use Rattle.mh_top_drive.specs.declared.stop.Cause.TheVariants.{Refused};
ghost use Rattle.mh_msgfile.specs.Sentences.{token_names};
ghost use Rattle.mh_top_prepare.specs.Loops.{look_text, loop_place, loops_line};

use mh_grammar::{Grammar, Token};
use mh_top_drive::{Stop, refused};
use std::alloc::{AllocError, Global};

/// The name of the next token, or the words for none.
fn look_name(grammar: &Grammar, token: Option<Token>) -> &[u8]
    requires { MatchOption token ⊤ (λ token. token < length grammar.now.tokens) }
    ensures { result.now ≡ look_text (token_names grammar.now) token }
{
    match token {
        Some(token) => grammar.tokens[usize::from(token)].name.as_slice(),
        None => b"no token",
    }
}

/// The beginning of the error message: the state in which the reductions begin, and the state below it if there is one.
fn place_of(alloc: Global, below: Option<u32>, state: u32) -> Result<String, AllocError>
    ensures { IfOk result (λ text. string_bytes text ≡ loop_place below state) }
{
    match below {
        None => format!(in alloc; "menhir: loops: state {state} on "),
        Some(below) => format!(in alloc; "menhir: loops: state {state} above state {below} on "),
    }
}

/// Refuses a table on which a relative run makes more than 10,000 reductions. The message names the state in which the
/// run begins, the state below it if there is one, and the next token if there is one.
pub(crate) fn loops(
    alloc: Global,
    grammar: &Grammar,
    below: Option<u32>,
    state: u32,
    token: Option<Token>,
) -> Stop
    requires { MatchOption token ⊤ (λ token. token < length grammar.now.tokens) }
    ensures { StopsWith (Refused (loops_line (token_names grammar.now) below state token)) result }
{
    match place_of(alloc, below, state) {
        Ok(place) => refused(alloc, place.as_bytes(), look_name(grammar, token), b"\n"),
        Err(_) => Stop::OutOfMemory,
    }
}
