//! Code, comments and types, up to their closing delimiters.
ghost use Rattle.std.specs.Prelude.{◌≡◌, ◌-◌, ◌<◌, ◌≤◌, ℕ, length, drop, List, IfSome, IfNone, IsTrue};
ghost use Rattle.std.specs.Option.{unwrap_or};
ghost use Rattle.mh_lex_bytes.specs.Bytes.{byte_at, is_word_start};
ghost use Rattle.mh_lex.specs.LexemeLengths.{quoted_id, quoted_rest};
ghost use Rattle.mh_lex.specs.Bodies.{Body};
ghost use Rattle.mh_lex.specs.CodeSteps.{begins_comment, step_past, nests_in, step_over_byte, step_over_one, step_inside, closer_length, step};
ghost use Rattle.mh_lex.specs.code.Scans.{innermost_of, step_over_opening, IsStepWithin};

use crate::items::{
    literal_length, quoted_length, quoted_opening_length, string_length, word_length,
};
use mh_lex_bytes::{has_byte, starts_arrow, starts_word};

/// The delimiter that closes code, a comment or a type.
#[derive(Clone, Copy, Drop)]
pub enum Delimiter {
    /// `*)`.
    Comment,
    /// `}`.
    Brace,
    /// `]`.
    Bracket,
    /// `%}`.
    Header,
    /// `>`.
    Angle,
    /// `*/`.
    Slash,
}

/// One step of the scan of code: the piece with which the bytes begin, and its length.
#[derive(Clone, Copy, Drop)]
pub enum CodeStep {
    /// The closing delimiter of the innermost level.
    Closes(usize),
    /// Bytes that are passed over in one step: their number.
    Passes(usize),
    /// One byte that opens a nested level.
    Nests,
    /// The two bytes that open a comment.
    Remark,
    /// There is no step: the bytes end, or a string begins that is not closed.
    Stuck,
}

/// Returns whether the bytes begin with a comment.
pub(crate) fn starts_comment(rest: &[u8]) -> bool
    ensures value { result ≡ begins_comment rest.now }
    ensures within { IsTrue result → 2 ≤ length rest.now }
{
    has_byte(rest, 0, b'(') && has_byte(rest, 1, b'*')
}

/// Returns whether the bytes begin with the byte that opens a nested level.
fn nests(ends: Delimiter, rest: &[u8]) -> bool
    ensures value { result ≡ nests_in ends rest.now }
    ensures within { IsTrue result → 1 ≤ length rest.now }
{
    match ends {
        Delimiter::Brace => has_byte(rest, 0, b'{'),
        Delimiter::Bracket => has_byte(rest, 0, b'['),
        Delimiter::Comment | Delimiter::Header | Delimiter::Angle | Delimiter::Slash => false,
    }
}

/// The step over a single byte.
fn single_step(ends: Delimiter, rest: &[u8]) -> CodeStep
    ensures value { result ≡ step_over_byte ends rest.now }
    ensures within { IsStepWithin (length rest.now) result }
{
    if rest.is_empty() {
        CodeStep::Stuck
    } else if nests(ends, rest) {
        CodeStep::Nests
    } else {
        CodeStep::Passes(1)
    }
}

/// Returns whether the bytes begin with a word.
fn begins_word(rest: &[u8]) -> bool
    ensures value { result ≡ is_word_start (byte_at rest.now 0) }
{
    match rest.first() {
        Some(first) => starts_word(*first),
        None => false,
    }
}

/// The step over an OCaml quoted string `{id|...|id}`, whose opening `{id|` has this length.
fn quoted_step(opening: usize, rest: &[u8]) -> CodeStep
    requires { (2 ≤ opening) × (opening ≤ length rest.now) }
    ensures value { result ≡ step_past opening (quoted_rest (quoted_id opening rest.now) (drop opening rest.now)) }
    ensures within { IsStepWithin (length rest.now) result }
{
    match quoted_length(&rest[1..opening - 1], &rest[opening..]) {
        Some(length) => CodeStep::Passes(length + opening),
        None => CodeStep::Stuck,
    }
}

/// The step over what the bytes begin with. The first of these that applies is taken: a string, a character literal, a
/// word, a quoted string, a single byte.
#[tactic(auto, unfolding(crate::specs::CodeSteps::step_over_one))]
fn item_at(ends: Delimiter, rest: &[u8]) -> CodeStep
    ensures value { result ≡ step_over_one ends rest.now }
    ensures within { IsStepWithin (length rest.now) result }
{
    if has_byte(rest, 0, b'"') {
        return match string_length(&rest[1..]) {
            Some(length) => CodeStep::Passes(length + 1),
            None => CodeStep::Stuck,
        };
    }
    if let Some(literal) = literal_length(rest) {
        return CodeStep::Passes(literal);
    }
    if begins_word(rest) {
        return CodeStep::Passes(word_length(rest));
    }
    match quoted_opening_length(rest) {
        Some(opening) => quoted_step(opening, rest),
        None => single_step(ends, rest),
    }
}

/// The step if the code is not closed here and no comment begins.
fn plain_step(ends: Delimiter, rest: &[u8]) -> CodeStep
    ensures value { result ≡ step_inside ends rest.now }
    ensures within { IsStepWithin (length rest.now) result }
{
    match ends {
        Delimiter::Comment | Delimiter::Brace | Delimiter::Bracket | Delimiter::Header => item_at(
            ends, rest,
        ),
        Delimiter::Angle => if starts_arrow(rest) {
            CodeStep::Passes(2)
        } else {
            single_step(ends, rest)
        },
        Delimiter::Slash => single_step(ends, rest),
    }
}

/// The length of the closing delimiter; `None` if the bytes do not begin with it.
fn closing_length(ends: Delimiter, rest: &[u8]) -> Option<usize>
    ensures value { unwrap_or result 0 ≡ closer_length ends rest.now }
    ensures within { IfSome result (λ n. (0 < n) × (n ≤ length rest.now)) }
{
    match ends {
        Delimiter::Comment => if has_byte(rest, 0, b'*') && has_byte(rest, 1, b')') {
            Some(2)
        } else {
            None
        },
        Delimiter::Brace => if has_byte(rest, 0, b'}') {
            Some(1)
        } else {
            None
        },
        Delimiter::Bracket => if has_byte(rest, 0, b']') {
            Some(1)
        } else {
            None
        },
        Delimiter::Header => if has_byte(rest, 0, b'%') && has_byte(rest, 1, b'}') {
            Some(2)
        } else {
            None
        },
        Delimiter::Angle => if has_byte(rest, 0, b'>') {
            Some(1)
        } else {
            None
        },
        Delimiter::Slash => if has_byte(rest, 0, b'*') && has_byte(rest, 1, b'/') {
            Some(2)
        } else {
            None
        },
    }
}

/// The step at these bytes, if they do not begin with the closing delimiter.
fn open_step(ends: Delimiter, rest: &[u8]) -> CodeStep
    ensures value { result ≡ step_over_opening ends rest.now }
    ensures within { IsStepWithin (length rest.now) result }
{
    if !matches!(ends, Delimiter::Slash) && starts_comment(rest) {
        CodeStep::Remark
    } else {
        plain_step(ends, rest)
    }
}

/// The step inside code, comments and types.
#[tactic(auto, unfolding(crate::specs::CodeSteps::step))]
fn step_at(ends: Delimiter, rest: &[u8]) -> CodeStep
    ensures value { result ≡ step ends rest.now }
    ensures within { IsStepWithin (length rest.now) result }
{
    if let Some(closing) = closing_length(ends, rest) {
        return CodeStep::Closes(closing);
    }
    open_step(ends, rest)
}

/// The step at a position.
fn step_from(ends: Delimiter, bytes: &[u8], at: usize) -> CodeStep
    requires { at ≤ length bytes.now }
    ensures value { result ≡ step ends (drop at bytes.now) }
    ensures within { IsStepWithin (length bytes.now - at) result }
{
    step_at(ends, &bytes[at..])
}

/// The innermost level: a comment, if any is open inside the code.
fn innermost(code: Delimiter, remarks: usize) -> Delimiter
    ensures { result ≡ innermost_of code remarks }
{
    if remarks == 0 {
        code
    } else {
        Delimiter::Comment
    }
}

/// The number of bytes up to and including the closing delimiter of the code; `None` if it is not closed.
pub(crate) fn code_length(code: Delimiter, rest: &[u8]) -> Option<usize>
    ensures some { IfSome result
        (λ n. (n ≤ length rest.now) × Body code rest.now (drop n rest.now)) }
    ensures none { IfNone result ((after : List ℕ) → Body code rest.now after → ⊥) }
{
    let mut at = 0usize;
    let mut outer = 0usize;
    let mut remarks = 0usize;
    loop {
        match step_from(innermost(code, remarks), rest, at) {
            CodeStep::Closes(length) => {
                at += length;
                if remarks > 0 {
                    remarks -= 1;
                } else if outer > 0 {
                    outer -= 1;
                } else {
                    return Some(at);
                }
            }
            CodeStep::Passes(length) => at += length,
            CodeStep::Nests => {
                outer += 1;
                at += 1;
            }
            CodeStep::Remark => {
                remarks += 1;
                at += 2;
            }
            CodeStep::Stuck => return None,
        }
    }
}
