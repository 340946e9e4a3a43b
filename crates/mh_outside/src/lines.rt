//! Lines of a source, read a byte at a time.
ghost use Rattle.std.specs.Prelude.{◌≡◌, ◌<◌, ◌^◌, List, ℕ, Option, MatchOption, length, IfOk};
ghost use Rattle.mh_outside.specs.declared.lines.LineFault.TheVariants.{Failed as Failed'};
ghost use Rattle.mh_outside.specs.code.Bytes.{ReadsByte};
ghost use Rattle.mh_outside.specs.code.Bytes.{AddsByte};
ghost use Rattle.mh_outside.specs.Lines.{ReadsLine, FindsLine, CountsLineFault};
ghost use Rattle.mh_outside.specs.Faults.{CountsFault};

use crate::source::{Failed, Source};
use std::alloc::Global;

/// Why a line was not read.
#[derive(Clone, Copy)]
pub enum LineFault {
    /// The source failed.
    Failed,
    /// More bytes than the limit were read without an LF.
    TooBig,
    /// There was no memory for the line.
    Memory,
}

impl From<Failed> for LineFault {
    ghost from_gives = { λ _ e. e ≡ Failed' };

    fn from(_: Failed) -> Self {
        LineFault::Failed
    }
}

const LF: u8 = b'\n';

/// Reads the next byte; `None` at the end of the input.
fn read_byte<S: Source>(source: &mut S) -> Result<Option<u8>, Failed>
    requires asked { S.MayRead source.old }
    ensures bytes { ReadsByte (S.left source.old) (S.left source.new) result }
    ensures may_still { IfOk result (λ _. S.MayRead source.new) }
    ensures counts { CountsFault (S.faults source.old) (S.faults source.new) result }
{
    let mut buf = [0u8; 1];
    match source.read(&mut buf)? {
        0 => Ok(None),
        _ => Ok(Some(buf[0])),
    }
}

/// The line at the end of the input; `None` if it has no byte.
fn last_line(line: Vec<u8>) -> Option<Vec<u8>>
    ensures { MatchOption result (length line.items ≡ 0) (λ last. (last.items ≡ line.items) × (0 < length last.items)) }
{
    if line.is_empty() {
        return None;
    }
    Some(line)
}

/// Adds a byte to a line of at most `limit` bytes.
fn add_byte(line: &mut Vec<u8>, byte: u8, limit: usize) -> Result<(), LineFault>
    ensures { AddsByte limit line.old.items line.new.items byte result }
{
    if line.len() >= limit {
        return Err(LineFault::TooBig);
    }
    if line.push(byte).is_err() {
        return Err(LineFault::Memory);
    }
    Ok(())
}

/// Reads a line, with a contract on the bytes that are taken; `read_line` adds the contract on the line that is found.
fn take_line<S: Source>(
    alloc: Global,
    source: &mut S,
    limit: usize,
) -> Result<Option<Vec<u8>>, LineFault>
    requires asked { S.MayRead source.old }
    ensures bytes { ReadsLine limit (S.left source.old) (S.left source.new) result }
    ensures may_still { IfOk result (λ _. S.MayRead source.new) }
    ensures counts { CountsLineFault (S.faults source.old) (S.faults source.new) result }
{
    let mut line = Vec::new(alloc);
    loop {
        match read_byte(source)? {
            None => return Ok(last_line(line)),
            Some(LF) => return Ok(Some(line)),
            Some(byte) => match add_byte(&mut line, byte, limit) {
                Ok(()) => (),
                Err(fault) => return Err(fault),
            },
        }
    }
}

/// Reads the next line of at most `limit` bytes. The LF at its end is taken but is not part of the result; the last
/// line may lack it. Returns `None` at the end of the input. The source is asked for one byte at a time, so that
/// nothing after the line is taken.
///
/// # Errors
///
/// `TooBig` exactly if `limit + 1` bytes without LF were read, `Failed` if the source failed, and `Memory` if there was
/// no memory for the line. The bytes read are then lost. Nothing is read after a failed read.
pub fn read_line<S: Source>(
    alloc: Global,
    source: &mut S,
    limit: usize,
) -> Result<Option<Vec<u8>>, LineFault>
    requires asked { S.MayRead source.old }
    ensures bytes { ReadsLine limit (S.left source.old) (S.left source.new) result }
    ensures found { FindsLine limit (S.left source.old) (S.left source.new) result }
    ensures may_still { IfOk result (λ _. S.MayRead source.new) }
    ensures counts { CountsLineFault (S.faults source.old) (S.faults source.new) result }
{
    take_line(alloc, source, limit)
}
