//! The loop that finds the lexemes of a file.
ghost use Rattle.std.specs.Prelude.{◌≡◌, ℕ, List, ◌-◌, ◌<◌, ◌≤◌, ◌^◌, length, drop, IfSome, IfNone, IfErr, IfOk, OnOk, Option, None, ◌++◌};
ghost use Rattle.std.specs.List.{All};
ghost use Rattle.mh_lex.specs.declared.kinds.Lexeme.{Lexeme};
ghost use Rattle.mh_lex.specs.Bodies.{Body};
ghost use Rattle.mh_lex.specs.Lexing.{Lexes, AreLexemesInOrder, IsLexemeWithin, percents_left, lexeme_between, IsPlaceWithin, ReportsLexicalLine, ReportsLexicalPlace};
ghost use Rattle.mh_lex.specs.code.Scans.{IsScan};

use crate::code::{Delimiter, code_length};
use crate::kinds::{Kind, Lexeme, LexemeStart, PlacedFault, Scan, SyntaxFault};
use crate::lexeme_starts::front_from;
use mh_lex_bytes::line_of;
use std::alloc::{AllocError, Global};

/// The number of bytes from a position up to and including the closing delimiter of the code; `None` if it is not
/// closed.
fn code_from(code: Delimiter, bytes: &[u8], at: usize) -> Option<usize>
    requires { at ≤ length bytes.now }
    ensures some { IfSome result
        (λ n. (n ≤ length bytes.now - at) × Body code (drop at bytes.now) (drop n (drop at bytes.now))) }
    ensures none { IfNone result ((after : List ℕ) → Body code (drop at bytes.now) after → ⊥) }
{
    code_length(code, &bytes[at..])
}

/// Scans the lexeme, comment or blank at a position.
fn taken_at(bytes: &[u8], at: usize) -> Scan
    requires { at ≤ length bytes.now }
    ensures { IsScan bytes.now at result }
{
    match front_from(bytes, at) {
        LexemeStart::Ended => Scan::Ended,
        LexemeStart::Short(what, length) => Scan::Piece(what, at + length),
        LexemeStart::Long(what, code, opening) => {
            match code_from(code, bytes, at + opening) {
                Some(length) => Scan::Piece(what, at + opening + length),
                None => Scan::Fault,
            }
        }
        LexemeStart::Fault => Scan::Fault,
    }
}

/// Adds a lexeme; a blank or comment, which has no kind, is dropped.
fn add(
    lexemes: &mut Vec<Lexeme>,
    what: Option<Kind>,
    start: usize,
    end: usize,
) -> Result<(), AllocError>
    ensures { OnOk result (lexemes.new.items ≡ lexemes.old.items ++ lexeme_between what start end) }
{
    if let Some(kind) = what {
        lexemes.push(Lexeme { kind, start, end })?;
    }
    Ok(())
}

/// Returns the lexemes of a grammar file in order, each with its positions. Blanks, comments and all bytes after the
/// second `%%` are dropped.
///
/// # Errors
///
/// `Syntax` with the position at which the first text begins that is not a lexeme or comment, or is not closed (Menhir
/// manual, lexical conventions, of which this project supports a part). `Memory` if memory ran out.
pub fn lex_placed(alloc: Global, bytes: &[u8]) -> Result<Vec<Lexeme>, PlacedFault>
    requires { length bytes.now < 2 ^ 31 }
    ensures lexemes { IfOk result (λ v. Lexes bytes.now v.items None) }
    ensures spans { IfOk result (λ v. AreLexemesInOrder 0 (length bytes.now) v.items) }
    ensures within { IfOk result (λ v. All (IsLexemeWithin (length bytes.now)) v.items) }
    ensures fault { ReportsLexicalPlace bytes.now result }
    ensures bound { IfErr result (IsPlaceWithin (length bytes.now)) }
{
    let mut lexemes = Vec::new(alloc);
    let mut at = 0usize;
    let mut left = 2usize;
    while left > 0 {
        match taken_at(bytes, at) {
            Scan::Ended => return Ok(lexemes),
            Scan::Piece(what, end) => {
                let Ok(()) = add(&mut lexemes, what, at, end) else {
                    return Err(PlacedFault::Memory);
                };
                left = still_left(what, left);
                at = end;
            }
            Scan::Fault => return Err(PlacedFault::Syntax { place: at }),
        }
    }
    Ok(lexemes)
}

/// Returns the lexemes of a grammar file, as `lex_placed` does.
///
/// # Errors
///
/// `Syntax` with the line, from 1, of the position of the fault. `Memory` if memory ran out.
pub fn lex(alloc: Global, bytes: &[u8]) -> Result<Vec<Lexeme>, SyntaxFault>
    requires { length bytes.now < 2 ^ 31 }
    ensures lexemes { IfOk result (λ v. Lexes bytes.now v.items None) }
    ensures spans { IfOk result (λ v. AreLexemesInOrder 0 (length bytes.now) v.items) }
    ensures within { IfOk result (λ v. All (IsLexemeWithin (length bytes.now)) v.items) }
    ensures fault { ReportsLexicalLine bytes.now result }
{
    match lex_placed(alloc, bytes) {
        Ok(lexemes) => Ok(lexemes),
        Err(PlacedFault::Syntax { place }) => Err(SyntaxFault::Syntax {
            line: line_of(bytes, place),
        }),
        Err(PlacedFault::Memory) => Err(SyntaxFault::Memory),
    }
}

/// The number of `%%` that are still to come, of two.
fn still_left(what: Option<Kind>, left: usize) -> usize
    requires { 0 < left }
    ensures value { result ≡ percents_left what (left - 1) }
    ensures within { result ≤ left }
{
    match what {
        Some(Kind::Percents) => left - 1,
        _ => left,
    }
}
