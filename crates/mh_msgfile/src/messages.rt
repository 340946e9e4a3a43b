//! Messages files: blocks of sentence lines, each followed by a block that is its message.
ghost use Rattle.std.specs.Prelude.{◌≡◌, ◌<◌, ◌≤◌, ◌^◌, ◌∷◌, ◌++◌, [], length, filter, Err, IfOk, OnOk};
ghost use Rattle.std.specs.List.{position_or_len, prefix_len};
ghost use Rattle.mh_grammar.specs.Plain.{plain_of, IsInRange};
ghost use Rattle.mh_grammar.specs.declared.types.Grammar.{Grammar as Grammar'};
ghost use Rattle.mh_msgfile.specs.Sentences.{vocabulary_in, vocabulary_of, LineResult, FirstPiece, runs, ReadsSentence};
ghost use Rattle.mh_msgfile.specs.code.FileSteps.{ReadsBlock, ReadsEntries, with_value, ReadsEntry, IsFaultOfLastBlock, IsFaultOfLine};
ghost use Rattle.mh_msgfile.specs.Lines.{is_kept as is_kept_number, is_blank_line as is_blank_number};
ghost use Rattle.mh_msgfile.specs.Messages.{kept_lines as kept, blocks, first_number, message_of as message_text, AreSentencesOf, ReadsMessages};

use crate::lexicon::Lexicon;
use crate::lines::{is_blank_line, is_kept, line_at, put_lines};
use crate::sentence::SentenceFault;
use mh_grammar::{Grammar, Memory, Name, Sequence, Token};
use std::alloc::{AllocError, AllocFailed, Global};

/// A sentence of a messages file.
#[derive(Drop)]
pub struct MsgSentence {
    /// The number of its line, from 1.
    pub line: u32,
    /// The number of its start, from 0.
    pub start: u16,
    pub tokens: Sequence<Token>,
}

/// An entry: sentences and their message.
#[derive(Drop)]
pub struct Entry {
    pub sentences: Sequence<MsgSentence>,
    /// The bytes of the message: its lines, each followed by an LF.
    pub message: Sequence<u8>,
}

/// The contents of a messages file.
#[derive(Drop)]
pub struct MsgFile {
    /// All lines, also those that begin with `#`, without the LF or CR LF that ends each.
    pub lines: Sequence<Name>,
    pub entries: Sequence<Entry>,
}

/// The reason why bytes are no messages file: the first fault in order of lines. Lines are numbered from 1.
#[derive(Drop)]
pub enum MsgFault {
    /// This line is no sentence line, or it is the first line of a last block of sentences that has no message.
    Shape { line: u32 },
    /// No start symbol has the name before the colon.
    UnknownStart { line: u32, name: Name },
    /// The line names no start, and the grammar has none or several.
    MissingStart { line: u32 },
    /// No token has this name, the first such name of the line.
    UnknownToken { line: u32, name: Name },
    /// Memory ran out.
    Memory,
}

/// Appends the number of a line, if the line is not ignored.
fn put_kept(numbers: &mut Vec<u32>, lines: &[Name], number: u32) -> Result<(), Memory>
    ensures { OnOk result (numbers.new.items ≡ numbers.old.items ++ filter (is_kept_number lines.now) (number ∷ [])) }
{
    if is_kept(lines, number) {
        numbers.push(number)?;
    }
    Ok(())
}

/// The numbers of the lines that are not ignored.
pub(crate) fn kept_lines(alloc: Global, lines: &[Name]) -> Result<Vec<u32>, Memory>
    requires { length lines.now < 2 ^ 31 }
    ensures { IfOk result (λ numbers. numbers.items ≡ kept lines.now) }
{
    let mut numbers = Vec::new(alloc);
    for place in 0..lines.len() {
        put_kept(&mut numbers, lines, place as u32 + 1)?;
    }
    Ok(numbers)
}

/// The number of blank lines at the front.
fn count_blank_lines(lines: &[Name], numbers: &[u32]) -> usize
    ensures value { result ≡ prefix_len (is_blank_number lines.now) numbers.now }
    ensures within { result ≤ length numbers.now }
{
    numbers
        .iter()
        .take_while(|&&number| is_blank_line(lines, number))
        .count()
}

/// The number of lines before the first blank line.
fn size_of_block(lines: &[Name], numbers: &[u32]) -> usize
    ensures value { result ≡ position_or_len (is_blank_number lines.now) numbers.now }
    ensures within { result ≤ length numbers.now }
{
    numbers
        .iter()
        .take_while(|&&number| !is_blank_line(lines, number))
        .count()
}

/// The first block, with the lines after it.
pub(crate) fn first_block<'a>(lines: &[Name], numbers: &'a [u32]) -> Option<(&'a [u32], &'a [u32])>
    ensures { FirstPiece (is_blank_number lines.now) numbers.now result }
{
    let (_, block) = numbers.split_at(count_blank_lines(lines, numbers));
    match size_of_block(lines, block) {
        0 => None,
        size => Some(block.split_at(size)),
    }
}

/// The message of a block: its lines, each followed by an LF.
pub(crate) fn message_of(
    alloc: Global,
    lines: &[Name],
    block: &[u32],
) -> Result<Sequence<u8>, Memory>
    ensures { IfOk result (λ message. message ≡ message_text lines.now block.now) }
{
    let mut message = Vec::new(alloc);
    for number in block {
        message.extend_from_slice(line_at(lines, *number))?;
        message.push(b'\n')?;
    }
    Ok(Sequence::from_vec(message))
}

/// The fault of the file for a line that is no sentence.
fn fault_of_line(line: u32, fault: SentenceFault) -> MsgFault
    ensures { (found : LineResult) → ReadsSentence found (Err fault) → IsFaultOfLine line found result }
{
    match fault {
        SentenceFault::Unreadable => MsgFault::Shape { line },
        SentenceFault::UnknownStart { name } => MsgFault::UnknownStart { line, name },
        SentenceFault::MissingStart => MsgFault::MissingStart { line },
        SentenceFault::UnknownToken { name } => MsgFault::UnknownToken { line, name },
        SentenceFault::Memory => MsgFault::Memory,
    }
}

/// Appends the sentences of a block.
fn put_sentences(
    alloc: Global,
    lexicon: &Lexicon,
    lines: &[Name],
    block: &[u32],
    sentences: &mut Sequence<MsgSentence>,
) -> Result<(), MsgFault>
    requires { sentences.old ≡ [] }
    ensures { ReadsBlock (vocabulary_in lexicon.now) lines.now block.now (with_value result sentences.new) }
{
    for line in block {
        match lexicon.read(alloc, line_at(lines, *line)) {
            Ok(sentence) => {
                let sentence = MsgSentence {
                    line: *line,
                    start: sentence.start,
                    tokens: sentence.tokens,
                };
                if sentences.push(sentence).is_err() {
                    return Err(MsgFault::Memory);
                }
            }
            Err(fault) => return Err(fault_of_line(*line, fault)),
        }
    }
    Ok(())
}

/// The number of the first line of a block.
pub(crate) fn first_line(block: &[u32]) -> u32
    ensures { result ≡ first_number block.now }
{
    match block.first() {
        Some(number) => *number,
        None => 0,
    }
}

/// Reads the entry of a block of sentences and the block that is their message.
fn read_entry(
    alloc: Global,
    lexicon: &Lexicon,
    lines: &[Name],
    block: &[u32],
    message: &[u32],
) -> Result<Entry, MsgFault>
    ensures { ReadsEntry (vocabulary_in lexicon.now) lines.now block.now message.now result }
{
    let mut sentences = Sequence::new(alloc);
    match put_sentences(alloc, lexicon, lines, block, &mut sentences) {
        Ok(()) => match message_of(alloc, lines, message) {
            Ok(message) => Ok(Entry { sentences, message }),
            Err(Memory) => Err(MsgFault::Memory),
        },
        Err(fault) => Err(fault),
    }
}

/// The fault of a last block of sentences that has no message: the fault of its first line that is no sentence, else
/// the fault that the message is missing.
#[tactic(auto, using(crate::proofs::ReadsEntries::last_shape))]
fn fault_of_last(alloc: Global, lexicon: &Lexicon, lines: &[Name], block: &[u32]) -> MsgFault
    ensures { IsFaultOfLastBlock (vocabulary_in lexicon.now) lines.now block.now result }
{
    let mut sentences = Sequence::new(alloc);
    if let Err(fault) = put_sentences(alloc, lexicon, lines, block, &mut sentences) {
        return fault;
    }
    MsgFault::Shape {
        line: first_line(block),
    }
}

/// Appends the entries of the blocks of these lines.
fn put_blocks(
    alloc: Global,
    lexicon: &Lexicon,
    lines: &[Name],
    numbers: &[u32],
    entries: &mut Sequence<Entry>,
) -> Result<(), MsgFault>
    requires { entries.old ≡ [] }
    ensures { ReadsEntries (vocabulary_in lexicon.now) lines.now (runs (is_blank_number lines.now) numbers.now) (with_value result entries.new) }
{
    let mut rest = numbers;
    while let Some((block, behind)) = first_block(lines, rest) {
        let Some((message, behind)) = first_block(lines, behind) else {
            return Err(fault_of_last(alloc, lexicon, lines, block));
        };
        match read_entry(alloc, lexicon, lines, block, message) {
            Ok(entry) => {
                if entries.push(entry).is_err() {
                    return Err(MsgFault::Memory);
                }
            }
            Err(fault) => return Err(fault),
        }
        rest = behind;
    }
    Ok(())
}

/// Appends the entries of a file with these lines.
fn put_entries(
    alloc: Global,
    lexicon: &Lexicon,
    lines: &[Name],
    entries: &mut Sequence<Entry>,
) -> Result<(), MsgFault>
    requires few { length lines.now < 2 ^ 31 }
    requires none { entries.old ≡ [] }
    ensures { ReadsEntries (vocabulary_in lexicon.now) lines.now (blocks lines.now) (with_value result entries.new) }
{
    match kept_lines(alloc, lines) {
        Ok(kept) => put_blocks(alloc, lexicon, lines, kept.as_slice(), entries),
        Err(Memory) => Err(MsgFault::Memory),
    }
}

/// Reads the messages file that the bytes spell, with the names of a lexicon.
fn read_file(alloc: Global, lexicon: &Lexicon, bytes: &[u8]) -> Result<MsgFile, MsgFault>
    requires { length bytes.now < 2 ^ 31 }
    ensures { (g : Grammar') → vocabulary_in lexicon.now ≡ vocabulary_of g → ReadsMessages g bytes.now result }
{
    let mut lines = Sequence::new(alloc);
    match put_lines(alloc, &mut lines, bytes) {
        Ok(()) => {}
        Err(Memory) => return Err(MsgFault::Memory),
    }
    let mut entries = Sequence::new(alloc);
    match put_entries(alloc, lexicon, lines.as_slice(), &mut entries) {
        Ok(()) => Ok(MsgFile { lines, entries }),
        Err(fault) => Err(fault),
    }
}

/// Reads the messages file that the bytes spell. Lines that begin with `#` are ignored. The remaining blocks, which
/// blank lines separate, are alternately sentence lines, read as by `read_sentence`, and the message of these
/// sentences. Returns the first fault in order of lines; that a last block has no message comes after the faults of its
/// lines. Fails with `Memory` only if memory runs out.
pub fn read_messages(alloc: Global, bytes: &[u8], grammar: &Grammar) -> Result<MsgFile, MsgFault>
    requires range { IsInRange (plain_of grammar.now) }
    requires size { length bytes.now < 2 ^ 31 }
    ensures file { ReadsMessages grammar.now bytes.now result }
    ensures known { IfOk result (AreSentencesOf (length grammar.now.starts) (length grammar.now.tokens)) }
{
    let Ok(lexicon) = Lexicon::new(alloc, grammar) else {
        return Err(MsgFault::Memory);
    };
    let file = read_file(alloc, &lexicon, bytes);
    // The lexicon is dropped in this one place only, because verifying the drop of its many fields is slow.
    drop(lexicon);
    file
}
