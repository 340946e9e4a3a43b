//! The lines of a file: their ends, the lines that are ignored, and the blank lines.
ghost use Rattle.std.specs.Prelude.{◌≡◌, ◌≤◌, [], length, OnOk};
ghost use Rattle.std.specs.List.{list_all};
ghost use Rattle.mh_msgfile.specs.Lines.{AreLines, line_at as line_text, is_ignored_line as has_number_sign, is_kept as is_kept_number, is_blank as is_separator, is_blank_line as is_blank_number};

use bstr::ByteSlice;
use mh_grammar::{Memory, Name, Sequence, from_bytes};
use std::alloc::Global;

/// Appends the lines of a file, without the LF or CR LF that ends each. Fails only if memory runs out.
pub(crate) fn put_lines(
    alloc: Global,
    lines: &mut Sequence<Name>,
    bytes: &[u8],
) -> Result<(), Memory>
    requires { lines.old ≡ [] }
    ensures lines { OnOk result (AreLines bytes.now lines.new) }
    ensures few { OnOk result (length lines.new ≤ length bytes.now) }
{
    for line in bytes.lines() {
        lines.push(from_bytes(alloc, line)?)?;
    }
    Ok(())
}

/// The line with this number; lines are numbered from 1. Empty if there is no such line.
pub(crate) fn line_at(lines: &[Name], number: u32) -> &[u8]
    ensures { result.now ≡ line_text lines.now number }
{
    match lines.get((number as usize).saturating_sub(1)) {
        Some(line) => line.as_slice(),
        None => b"",
    }
}

/// True if the first byte is `#`; such a line is ignored.
fn is_ignored_line(line: &[u8]) -> bool
    ensures { result ≡ has_number_sign line.now }
{
    match line.first() {
        Some(first) => *first == b'#',
        None => false,
    }
}

/// True if the line of this number is not ignored.
pub(crate) fn is_kept(lines: &[Name], number: u32) -> bool
    ensures { result ≡ is_kept_number lines.now number }
{
    !is_ignored_line(line_at(lines, number))
}

/// True if the byte is a space, a tab or a CR.
pub(crate) fn is_blank(byte: u8) -> bool
    ensures { result ≡ is_separator byte }
{
    byte == b' ' || byte == b'\t' || byte == b'\r'
}

/// True if the line has no bytes but blanks.
fn is_blank_text(line: &[u8]) -> bool
    ensures { result ≡ list_all is_separator line.now }
{
    line.iter().all(|byte| is_blank(*byte))
}

/// True if the line of this number has no bytes but blanks.
pub(crate) fn is_blank_line(lines: &[Name], number: u32) -> bool
    ensures { result ≡ is_blank_number lines.now number }
{
    is_blank_text(line_at(lines, number))
}
