//! The lines that report findings.
ghost use Rattle.std.specs.Prelude.{◌≡◌, ◌<◌, ◌≤◌, ◌++◌, ◌^◌, length, Some, slice_get, codes, decimal, OnOk};
ghost use Rattle.mh_lint_findings.specs.declared.findings.GrammarFile.{GrammarFile as File};
ghost use Rattle.mh_lint_findings.specs.Positions.{IsPositionWithin, column_at, position_text};
ghost use Rattle.mh_lint_findings.specs.Lines.{line_of, line_text};
ghost use Rattle.mh_lint_findings.specs.code.Cursors.{IsAt, IsAtIn, AreShort};
ghost use Rattle.mh_lex_bytes.specs.Lines.{line_at};

use crate::cursor::Cursor;
use crate::findings::{Finding, GrammarFile, Position};
use mh_grammar::Memory;
use mh_grammar_texts::write_number;

/// The cursor at a position of a file. The walk goes on from the old cursor if the cursor is in this file.
fn cursor_at(cursor: Cursor, file: usize, bytes: &[u8], start: usize) -> Cursor
    requires short { length bytes.now < 2 ^ 31 }
    requires within { start ≤ length bytes.now }
    requires here { cursor.file ≡ file → IsAt bytes.now cursor }
    ensures file { result.file ≡ file }
    ensures at { result.at ≡ start }
    ensures there { IsAt bytes.now result }
{
    if cursor.file == file {
        return cursor.moved_to(bytes, start);
    }
    Cursor::new(file).moved_to(bytes, start)
}

/// Appends the name of a file, the line and the column.
fn write_place(text: &mut Vec<u8>, name: &[u8], cursor: Cursor) -> Result<(), Memory>
    ensures { OnOk result (text.new.items ≡ text.old.items ++ (name.now ++ codes ":" ++ decimal cursor.line ++ codes ":" ++ decimal cursor.column ++ codes ": ")) }
{
    text.extend_from_slice(name)?;
    text.push(b':')?;
    write_number(text, cursor.line)?;
    text.push(b':')?;
    write_number(text, cursor.column)?;
    text.extend_from_slice(b": ")?;
    Ok(())
}

/// Appends the name of a file.
fn write_file(text: &mut Vec<u8>, name: &[u8]) -> Result<(), Memory>
    ensures { OnOk result (text.new.items ≡ text.old.items ++ (name.now ++ codes ": ")) }
{
    text.extend_from_slice(name)?;
    text.extend_from_slice(b": ")?;
    Ok(())
}

/// Appends a position of a file, and moves the cursor to the position.
fn write_in_file(
    text: &mut Vec<u8>,
    file: &GrammarFile,
    number: usize,
    start: usize,
    cursor: &mut Cursor,
) -> Result<(), Memory>
    requires short { length file.now.bytes < 2 ^ 31 }
    requires within { start ≤ length file.now.bytes }
    requires here { cursor.old.file ≡ number → IsAt file.now.bytes cursor.old }
    ensures text { OnOk result (text.new.items ≡ text.old.items ++ (file.now.name ++ codes ":" ++ decimal (line_at file.now.bytes start) ++ codes ":" ++ decimal (column_at file.now.bytes start) ++ codes ": ")) }
    ensures file { cursor.new.file ≡ number }
    ensures there { IsAt file.now.bytes cursor.new }
{
    *cursor = cursor_at(*cursor, number, file.bytes.as_slice(), start);
    write_place(text, file.name.as_slice(), *cursor)
}

/// Appends the text of a position.
#[tactic(auto, using(crate::proofs::PlacesWithin::place_known))]
fn write_position(
    text: &mut Vec<u8>,
    files: &[GrammarFile],
    cursor: &mut Cursor,
    at: Position,
) -> Result<(), Memory>
    requires short { AreShort files.now }
    requires within { IsPositionWithin files.now at }
    requires here { IsAtIn files.now cursor.old }
    ensures text { OnOk result (text.new.items ≡ text.old.items ++ position_text files.now at) }
    ensures there { IsAtIn files.now cursor.new }
{
    match at {
        Position::InFile { file, start } => {
            write_in_file(text, &files[file], file, start, cursor)
        }
        Position::OfFile { file } => match files.get(file) {
            Some(file) => write_file(text, file.name.as_slice()),
            None => Ok(()),
        },
        Position::OfAutomaton => Ok(()),
    }
}

/// Appends the line of a finding, and moves the cursor to its position. Fails only if memory runs out. If findings come
/// in the order of files and positions, the time for all of them is that of one walk over the files.
pub fn write_finding(
    text: &mut Vec<u8>,
    files: &[GrammarFile],
    cursor: &mut Cursor,
    found: &Finding<'_>,
) -> Result<(), Memory>
    requires short { AreShort files.now }
    requires within { IsPositionWithin files.now found.now.at }
    requires here { IsAtIn files.now cursor.old }
    ensures text { OnOk result (text.new.items ≡ text.old.items ++ line_text files.now (line_of found.now)) }
    ensures there { OnOk result (IsAtIn files.now cursor.new) }
{
    write_position(text, files, cursor, found.at)?;
    found.text.append_to(text)?;
    text.push(b'\n')?;
    Ok(())
}
