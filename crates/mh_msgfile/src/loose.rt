//! Messages files as lines and blocks alone: a file that was written for another grammar is read without the names of a
//! grammar.
ghost use Rattle.std.specs.Prelude.{◌≡◌, ◌<◌, ◌^◌, [], length, map, IfOk};
ghost use Rattle.mh_msgfile.specs.Sentences.{runs};
ghost use Rattle.mh_msgfile.specs.Lines.{is_blank_line};
ghost use Rattle.mh_msgfile.specs.Messages.{blocks, message_of as message_text};
ghost use Rattle.mh_msgfile.specs.LooseFiles.{loose_line, HasShortLines, ReadsLoose};
ghost use Rattle.mh_msgfile.specs.code.LooseSteps.{ReadsLooseEntries};
ghost use Rattle.mh_msgfile.specs.declared.loose.LooseFault.TheVariants as faults;

use crate::blocks::read_blocks;
use crate::lines::line_at;
use crate::messages::{first_block, first_line, kept_lines, message_of};
use mh_grammar::{Memory, Name, Sequence, from_bytes};
use std::alloc::{AllocError, Global};

/// A sentence line as the file has it. The line need not be a sentence of any grammar.
#[derive(Drop)]
pub struct LooseLine {
    /// The number of the line, from 1.
    pub line: u32,
    /// The line without the LF or CR LF that ends it.
    pub text: Name,
}

/// An entry: sentence lines and their message.
#[derive(Drop)]
pub struct LooseEntry {
    pub sentences: Sequence<LooseLine>,
    /// The bytes of the message: its lines, each followed by an LF.
    pub message: Sequence<u8>,
}

/// The entries of a messages file, for whatever grammar the file was written.
#[derive(Drop)]
pub struct LooseFile {
    pub entries: Sequence<LooseEntry>,
}

/// The reason why bytes have no entries.
#[derive(Drop)]
pub enum LooseFault {
    /// This is the first line of a last block of sentence lines that has no message.
    Shape { line: u32 },
    /// Memory ran out.
    Memory,
}

impl From<Memory> for LooseFault {
    ghost from_gives = { λ _ fault. fault ≡ faults.Memory };

    fn from(_: Memory) -> Self {
        LooseFault::Memory
    }
}

impl From<AllocError> for LooseFault {
    ghost from_gives = { λ _ fault. fault ≡ faults.Memory };

    fn from(_: AllocError) -> Self {
        LooseFault::Memory
    }
}

/// The lines of a block, with their numbers.
fn lines_of_block(
    alloc: Global,
    lines: &[Name],
    block: &[u32],
) -> Result<Sequence<LooseLine>, Memory>
    ensures { IfOk result (λ sentences. sentences ≡ map (loose_line lines.now) block.now) }
{
    let mut sentences = Sequence::new(alloc);
    for line in block {
        let text = from_bytes(alloc, line_at(lines, *line))?;
        sentences.push(LooseLine { line: *line, text })?;
    }
    Ok(sentences)
}

/// The entry of a block of sentence lines and the block that is their message.
fn entry_of_blocks(
    alloc: Global,
    lines: &[Name],
    block: &[u32],
    message: &[u32],
) -> Result<LooseEntry, Memory>
    ensures { IfOk result (λ entry. entry ≡ record { sentences = map (loose_line lines.now) block.now; message = message_text lines.now message.now }) }
{
    let sentences = lines_of_block(alloc, lines, block)?;
    let message = message_of(alloc, lines, message)?;
    Ok(LooseEntry { sentences, message })
}

/// Appends the entries of the blocks of these lines. Returns the first line of the last block, if this block has no
/// message.
fn put_block_entries(
    alloc: Global,
    lines: &[Name],
    numbers: &[u32],
    entries: &mut Sequence<LooseEntry>,
) -> Result<Option<u32>, Memory>
    requires { entries.old ≡ [] }
    ensures { IfOk result (ReadsLooseEntries lines.now (runs (is_blank_line lines.now) numbers.now) entries.new) }
{
    let mut rest = numbers;
    while let Some((block, after)) = first_block(lines, rest) {
        let Some((message, after)) = first_block(lines, after) else {
            return Ok(Some(first_line(block)));
        };
        entries.push(entry_of_blocks(alloc, lines, block, message)?)?;
        rest = after;
    }
    Ok(None)
}

/// Appends the entries of a file with these lines. Returns the first line of the last block, if this block has no
/// message.
pub(crate) fn put_line_entries(
    alloc: Global,
    lines: &[Name],
    entries: &mut Sequence<LooseEntry>,
) -> Result<Option<u32>, Memory>
    requires few { length lines.now < 2 ^ 31 }
    requires none { entries.old ≡ [] }
    ensures { IfOk result (ReadsLooseEntries lines.now (blocks lines.now) entries.new) }
{
    let kept = kept_lines(alloc, lines)?;
    put_block_entries(alloc, lines, kept.as_slice(), entries)
}

/// Reads the entries of a messages file without a grammar, as `read_blocks` does. Fails with `Shape` exactly if the
/// number of blocks is odd, with the first line of the last block, and with `Memory` only if memory runs out.
pub fn read_loose(alloc: Global, bytes: &[u8]) -> Result<LooseFile, LooseFault>
    requires { length bytes.now < 2 ^ 31 }
    ensures file { ReadsLoose bytes.now result }
    ensures short { IfOk result HasShortLines }
{
    let found = read_blocks(alloc, bytes)?;
    match found.unpaired {
        None => Ok(found.file),
        Some(line) => Err(LooseFault::Shape { line }),
    }
}
