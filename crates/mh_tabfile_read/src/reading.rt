//! Reads table files.
ghost use Rattle.std.specs.Prelude.{◌≡◌, ◌<◌, ◌≤◌, ◌+◌, ◌^◌, ◌==◌, ℕ, max, map, length, IfOk, OnOk, Err, Ok, ◌⊎◌, true, false};
ghost use Rattle.std.specs.List.{slice_split};
ghost use Rattle.mh_tabfile_form.specs.declared.types.RawTable.{RawTable as Raw};
ghost use Rattle.mh_tabfile_form.specs.Form.{IsFileOf};
ghost use Rattle.mh_tabfile_read.specs.Reading.{IsOtherVersion, IsReading};
ghost use Rattle.mh_tabfile_read.specs.code.Machine.{initial_reader, next, finish, AdvancesTo};
ghost use Rattle.mh_tabfile_read.specs.code.Numbers.{number_of as number_read};
ghost use Rattle.mh_tabfile_read.specs.code.Words;
ghost use Rattle.mh_tabfile_read.specs.code.Lines;
ghost use Rattle.mh_tabfile_read.specs.code.Lines.{words_of, lines_in, ReadsLines, ReadsLinesInto, IsFinished, is_other_head as is_head_of_other};

use crate::advance::{LineRefusal, advance};
use crate::lines::split_lines;
use crate::numbers::number_of;
use crate::places::{ExpectedLine, Reader};
use crate::words::{is_word, mode_in};
use mh_grammar::Sequence;
use mh_resolve_cells::Mode;
use mh_tabfile_form::RawTable;
use std::alloc::{AllocError, Global};

/// Why bytes are not a table file.
#[derive(Clone, Copy)]
pub enum TabFault {
    /// The file is of another version.
    Version,
    /// The number of the first bad line, from 1.
    TabShape { line: u32 },
    /// Memory ran out.
    Memory,
}

/// Splits the bytes at each separator.
fn cut(alloc: Global, bytes: &[u8], separator: u8) -> Result<Vec<&[u8]>, AllocError>
    ensures { IfOk result (λ v. map (λ x. x.now) v.items ≡ slice_split (λ b. b == separator) bytes.now) }
{
    bytes.split(|byte| *byte == separator).collect(alloc)
}

fn is_mode(word: &[u8]) -> bool
    ensures { result ≡ Lines.is_mode (Words.mode_of word.now) }
{
    mode_in(word).is_some()
}

/// Returns true if the word is a number other than 1 and 2.
fn is_other_number(word: &[u8]) -> bool
    ensures { result ≡ Lines.is_other_number (number_read word.now) }
{
    match number_of(word) {
        None => false,
        Some(number) => number != 1 && number != 2,
    }
}

fn is_other_version(word: &[u8], version: &[u8], mode: &[u8]) -> bool
    ensures { result ≡ Lines.is_other_version word.now version.now mode.now }
{
    is_word(word, b"menhir-tables") && is_other_number(version) && is_mode(mode)
}

#[tactic(auto, unfolding(crate::specs::code::Lines::is_other_head))]
fn is_other_head(words: &[&[u8]]) -> bool
    ensures { result ≡ is_head_of_other (map (λ w. w.now) words.now) }
{
    match words {
        [word, version, mode] => is_other_version(word, version, mode),
        _ => false,
    }
}

fn fresh(alloc: Global) -> Reader
    ensures { result ≡ initial_reader }
{
    Reader {
        mode: Mode::Merged,
        tokens: Sequence::new(alloc),
        costs: None,
        starts: Sequence::new(alloc),
        productions: Sequence::new(alloc),
        states: Sequence::new(alloc),
        items: Sequence::new(alloc),
        edges: Sequence::new(alloc),
        cells: Sequence::new(alloc),
        place: ExpectedLine::Head,
    }
}

/// Puts the words of a line into a list, in place of what the list held before.
fn put_words<'a>(words: &mut Vec<&'a [u8]>, line: &'a [u8]) -> Result<(), AllocError>
    ensures { OnOk result (map (λ x. x.now) words.new.items ≡ words_of line.now) }
{
    words.clear();
    words.extend(line.split(|byte| *byte == b' '))
}

/// Splits the next line into words and reads them. The list of words is scratch space, which each line uses again.
fn read_line<'a>(
    alloc: Global,
    reader: &mut Reader,
    words: &mut Vec<&'a [u8]>,
    part: &'a [u8],
) -> Result<(), LineRefusal>
    ensures { AdvancesTo (next reader.old (words_of part.now)) reader.new result }
{
    let Ok(()) = put_words(words, part) else {
        return Err(LineRefusal::Memory);
    };
    advance(alloc, reader, words.as_slice())
}

/// Reads the lines with a reader that has read nothing yet.
fn read_with<'a>(alloc: Global, reader: &mut Reader, parts: &[&'a [u8]]) -> Result<(), TabFault>
    requires fresh { reader.old ≡ initial_reader }
    requires few { length parts.now < 2 ^ 32 }
    ensures { ReadsLinesInto (lines_in (map (λ x. x.now) parts.now)) reader.new result }
{
    let mut words = Vec::new(alloc);
    for (at, part) in parts.iter().enumerate() {
        match read_line(alloc, reader, &mut words, *part) {
            Ok(()) => {}
            Err(LineRefusal::Unexpected) => {
                return Err(TabFault::TabShape {
                    line: at as u32 + 1,
                });
            }
            Err(LineRefusal::Memory) => return Err(TabFault::Memory),
        }
    }
    Ok(())
}

/// Reads the lines.
fn read_lines(alloc: Global, parts: &[&[u8]]) -> Result<Reader, TabFault>
    requires { length parts.now < 2 ^ 32 }
    ensures { ReadsLines (lines_in (map (λ x. x.now) parts.now)) result }
{
    let mut reader = fresh(alloc);
    match read_with(alloc, &mut reader, parts) {
        Ok(()) => Ok(reader),
        Err(fault) => {
            drop(reader);
            Err(fault)
        }
    }
}

/// Reports a bad line. The content read so far is dropped by this generic call, because dropping a reader takes long to
/// prove.
fn misplaced<T: Drop>(read: T, line: u32) -> Result<RawTable, TabFault>
    ensures { result ≡ Err (TabFault.TabShape line) }
{
    drop(read);
    Err(TabFault::TabShape { line })
}

/// Returns the table if the file may end here, else reports the given line.
#[tactic(auto, unfolding(crate::specs::code::Machine::finish))]
fn ended(reader: Reader, line: u32) -> Result<RawTable, TabFault>
    ensures { IsFinished (finish reader) line result }
{
    match reader.place {
        ExpectedLine::Ended => Ok(RawTable {
            mode: reader.mode,
            tokens: reader.tokens,
            costs: reader.costs,
            starts: reader.starts,
            productions: reader.productions,
            states: reader.states,
        }),
        _ => misplaced(reader, line),
    }
}

/// Reads a file of a known version. The parts are the file split at LF; the last part has the bytes after the last LF.
fn read_known(alloc: Global, bytes: &[u8], parts: &[&[u8]]) -> Result<RawTable, TabFault>
    requires cut { map (λ x. x.now) parts.now ≡ slice_split (λ b. b == 10) bytes.now }
    requires some { 0 < length parts.now }
    requires few { length parts.now < 2 ^ 32 }
    ensures { IsReading bytes.now result }
{
    // The argument `bytes` is not used at run time; only the contract mentions it.
    let _bytes = bytes;
    let count = parts.len() - 1;
    let reader = match read_lines(alloc, &parts[..count]) {
        Ok(reader) => reader,
        Err(fault) => return Err(fault),
    };
    if !parts[count].is_empty() {
        return misplaced(reader, count as u32 + 1);
    }
    ended(reader, line_of(count as u32))
}

/// Returns the first line of a file that is split at LF, whether LF follows or not.
fn first_line<'a>(parts: &[&'a [u8]]) -> &'a [u8]
    ensures { result.now ≡ Lines.first_line (map (λ part. part.now) parts.now) }
{
    match parts {
        [first, ..] => first,
        [] => b"",
    }
}

/// Returns true if a file that is split at LF is of another version.
fn is_other(alloc: Global, bytes: &[u8], parts: &[&[u8]]) -> Result<bool, AllocError>
    requires cut { map (λ x. x.now) parts.now ≡ slice_split (λ b. b == 10) bytes.now }
    requires some { 0 < length parts.now }
    ensures { IfOk result (λ other. (other ≡ true → IsOtherVersion bytes.now) × (other ≡ false → IsOtherVersion bytes.now → ⊥)) }
{
    // The argument `bytes` is not used at run time; only the contract mentions it.
    let _bytes = bytes;
    let head = cut(alloc, first_line(parts), b' ')?;
    Ok(is_other_head(head.as_slice()))
}

/// Reads a file that is split at LF; the last part has the bytes after the last LF.
fn read_parts(alloc: Global, bytes: &[u8], parts: &[&[u8]]) -> Result<RawTable, TabFault>
    requires cut { map (λ x. x.now) parts.now ≡ slice_split (λ b. b == 10) bytes.now }
    requires some { 0 < length parts.now }
    requires few { length parts.now < 2 ^ 32 }
    ensures reading { IsReading bytes.now result }
    ensures other { IsOtherVersion bytes.now → (result ≡ Err TabFault.Version) ⊎ (result ≡ Err TabFault.Memory) }
{
    let Ok(other) = is_other(alloc, bytes, parts) else {
        return Err(TabFault::Memory);
    };
    if other {
        return Err(TabFault::Version);
    }
    read_known(alloc, bytes, parts)
}

/// The number of the last line of `count` lines, from 1; also 1 if there is no line.
fn line_of(count: u32) -> u32
    ensures { result ≡ max 1 count }
{
    if count == 0 { 1 } else { count }
}

/// Reads a table file. Fails with `Version` if the first line names a version other than 1 and 2, else with `TabShape`
/// and the number of the first bad line, or if memory runs out.
pub fn read_tables(alloc: Global, bytes: &[u8]) -> Result<RawTable, TabFault>
    requires { length bytes.now < 2 ^ 31 }
    ensures reading { IsReading bytes.now result }
    ensures other { IsOtherVersion bytes.now → (result ≡ Err TabFault.Version) ⊎ (result ≡ Err TabFault.Memory) }
    ensures only { (raw : Raw) → IsFileOf bytes.now raw → (result ≡ Ok raw) ⊎ (result ≡ Err TabFault.Memory) }
{
    let Ok(parts) = split_lines(alloc, bytes) else {
        return Err(TabFault::Memory);
    };
    read_parts(alloc, bytes, parts.as_slice())
}
