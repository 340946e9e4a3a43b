//! Reads the messages files of the modes from the shelf, and checks them against the table.
ghost use Rattle.std.specs.Prelude.{◌≡◌, ◌<◌, ◌≤◌, ◌^◌, List, ℕ, length, IfOk};
ghost use Rattle.mh_grammar.specs.Plain.{plain_of, IsInRange};
ghost use Rattle.mh_msgfile.specs.Messages.{AreSentencesOf, ReportsFault as ReportsFileFault};
ghost use Rattle.mh_check.specs.Compiling.{ReportsCheckFault};
ghost use Rattle.mh_check.specs.Texts.{file_line, check_line};
ghost use Rattle.mh_top_plans.specs.MessagesFiles.{AreLooseBlocks, AreMessages, AreMessagesOf, IsLooseFile, IsMessagesFile};
ghost use Rattle.mh_top_drive.specs.FileContents.{IsFileContent};
ghost use Rattle.mh_top_drive.specs.code.Prepared.{IsConsistent};
ghost use Rattle.mh_top_drive.specs.code.StageCalls.{FileStageGives, StopsWith, StageShelfCounts, StageGives};
ghost use Rattle.mh_top_drive.specs.declared.stop.Cause.TheVariants.{Refused as Refused'};

use mh_check::{CheckFault, Compiled, check_fault_line, compile, file_fault_line};
use mh_grammar::{Grammar, Memory, Sequence};
use mh_msgfile::{
    LooseBlocks, LooseFault, LooseFile, MsgFault, MsgFile, read_blocks, read_loose, read_messages,
};
use mh_outside::Shelf;
use mh_tables_core::Halting;
use mh_top_drive::{FileFormat, Prepared, Stop, read_file, refusal};
use std::alloc::Global;

/// The form of messages files for a grammar and its table. The content of a file is a messages file by the names of the
/// grammar, or the messages for the states of the table.
#[derive(Drop)]
struct MessagesFiles<'a> {
    grammar: &'a Grammar,
    table: &'a Halting,
    ghost same: { table.now.grammar ≡ plain_of grammar.now },
}

/// The refusal of a file whose bytes spell no messages file.
fn no_file(alloc: Global, name: &[u8], fault: &MsgFault) -> Stop
    ensures { ReportsFileFault fault.now (λ found. StopsWith (Refused' (file_line name.now found)) result) }
{
    match file_fault_line(alloc, name, fault) {
        Ok(line) => refusal(Sequence::from_vec(line)),
        Err(Memory) => Stop::OutOfMemory,
    }
}

/// The refusal of a messages file with a fault against the table. The fault is not lack of memory.
pub fn no_fit(alloc: Global, name: &[u8], fault: &CheckFault) -> Stop
    ensures { ReportsCheckFault fault.now (λ found. StopsWith (Refused' (check_line name.now found)) result) }
{
    match check_fault_line(alloc, name, fault) {
        Ok(line) => refusal(Sequence::from_vec(line)),
        Err(Memory) => Stop::OutOfMemory,
    }
}

/// The messages for the states of the table, or the refusal of a messages file with a fault.
fn messages_of(
    alloc: Global,
    table: &Halting,
    name: &[u8],
    file: &MsgFile,
) -> Result<Compiled, Stop>
    requires { AreSentencesOf (length table.now.grammar.starts) table.now.grammar.tokens file.now }
    ensures { StageGives (AreMessagesOf table.now name.now file.now) result }
{
    match compile(alloc, table, file) {
        Ok(compiled) => Ok(compiled),
        Err(CheckFault::Memory) => Err(Stop::OutOfMemory),
        Err(fault) => Err(no_fit(alloc, name, &fault)),
    }
}

/// The messages file that the bytes of the named file spell, or its refusal.
fn spelled_in(alloc: Global, grammar: &Grammar, name: &[u8], bytes: &[u8]) -> Result<MsgFile, Stop>
    requires range { IsInRange (plain_of grammar.now) }
    requires size { length bytes.now < 2 ^ 31 }
    ensures stage { StageGives (IsMessagesFile grammar.now name.now bytes.now) result }
    ensures fits { IfOk result (λ file. AreSentencesOf (length grammar.now.starts) (length grammar.now.tokens) file) }
{
    match read_messages(alloc, bytes, grammar) {
        Ok(file) => Ok(file),
        Err(MsgFault::Memory) => Err(Stop::OutOfMemory),
        Err(fault) => Err(no_file(alloc, name, &fault)),
    }
}

/// The messages for the states of the table, from the bytes of the named file, or its refusal.
fn messages_in(
    alloc: Global,
    files: &MessagesFiles<'_>,
    name: &[u8],
    bytes: &[u8],
) -> Result<Compiled, Stop>
    requires { length bytes.now < 2 ^ 31 }
    ensures { StageGives (AreMessages files.now.grammar.now files.now.table.now name.now bytes.now) result }
{
    files.table.table().facts();
    match spelled_in(alloc, files.grammar, name, bytes) {
        Ok(file) => messages_of(alloc, files.table, name, &file),
        Err(stop) => Err(stop),
    }
}

impl FileFormat<Compiled> for MessagesFiles<'_> {
    ghost use Rattle.mh_top_plans.specs.MessagesFiles.{AreMessages};

    ghost Spells = { λ s. AreMessages s.grammar.now s.table.now };

    fn spell(&self, alloc: Global, name: &[u8], bytes: Vec<u8>) -> Result<Compiled, Stop> {
        messages_in(alloc, self, name, bytes.as_slice())
    }
}

impl FileFormat<MsgFile> for MessagesFiles<'_> {
    ghost use Rattle.mh_top_plans.specs.MessagesFiles.{IsMessagesFile};

    ghost Spells = { λ s. IsMessagesFile s.grammar.now };

    fn spell(&self, alloc: Global, name: &[u8], bytes: Vec<u8>) -> Result<MsgFile, Stop> {
        self.table.table().facts();
        spelled_in(alloc, self.grammar, name, bytes.as_slice())
    }
}

/// The form of messages files for any grammar: their sentence lines are not read.
#[derive(Drop)]
struct LooseFiles;

/// The entries of the bytes of the named file, or its refusal.
fn loose_in(alloc: Global, name: &[u8], bytes: &[u8]) -> Result<LooseFile, Stop>
    requires { length bytes.now < 2 ^ 31 }
    ensures { StageGives (IsLooseFile name.now bytes.now) result }
{
    match read_loose(alloc, bytes) {
        Ok(file) => Ok(file),
        Err(LooseFault::Shape { line }) => Err(no_file(alloc, name, &MsgFault::Shape { line })),
        Err(LooseFault::Memory) => Err(Stop::OutOfMemory),
    }
}

impl FileFormat<LooseFile> for LooseFiles {
    ghost use Rattle.mh_top_plans.specs.MessagesFiles.{IsLooseFile};

    ghost Spells = { λ s. IsLooseFile };

    fn spell(&self, alloc: Global, name: &[u8], bytes: Vec<u8>) -> Result<LooseFile, Stop> {
        loose_in(alloc, name, bytes.as_slice())
    }
}

/// The form of messages files that are examined: any file has blocks.
#[derive(Drop)]
struct ExaminedFiles;

impl FileFormat<LooseBlocks> for ExaminedFiles {
    ghost use Rattle.mh_top_plans.specs.MessagesFiles.{AreLooseBlocks};

    ghost Spells = { λ s. AreLooseBlocks };

    fn spell(&self, alloc: Global, _name: &[u8], bytes: Vec<u8>) -> Result<LooseBlocks, Stop> {
        match read_blocks(alloc, bytes.as_slice()) {
            Ok(blocks) => Ok(blocks),
            Err(Memory) => Err(Stop::OutOfMemory),
        }
    }
}

/// Reads the named messages file, and gives the messages for the states of the table.
pub fn read_messages_file<F: Shelf, const W: usize>(
    alloc: Global,
    prepared: &Prepared<W>,
    shelf: &mut F,
    name: &[u8],
) -> Result<Compiled, Stop>
    requires few { W ≤ 8 }
    requires consistent { IsConsistent prepared.now }
    requires asked { F.MayAsk shelf.old name.now }
    ensures messages { FileStageGives (IsFileContent (F.files shelf.old) (AreMessages prepared.now.grammar prepared.now.tabled.halting) name.now)
        (λ other. other ≡ name.now) result }
    ensures may_ask { (other : List ℕ) → F.MayAsk shelf.old other → F.MayAsk shelf.new other }
    ensures counts { StageShelfCounts (F.faults shelf.old) (F.faults shelf.new) result }
    ensures kept { F.files shelf.new ≡ F.files shelf.old }
{
    let files = MessagesFiles {
        grammar: &prepared.grammar,
        table: &prepared.tabled.halting,
    };
    read_file(alloc, shelf, &files, name)
}

/// Reads the named messages file without checking it against the table.
pub fn read_spelled_file<F: Shelf, const W: usize>(
    alloc: Global,
    prepared: &Prepared<W>,
    shelf: &mut F,
    name: &[u8],
) -> Result<MsgFile, Stop>
    requires few { W ≤ 8 }
    requires consistent { IsConsistent prepared.now }
    requires asked { F.MayAsk shelf.old name.now }
    ensures spelled { FileStageGives (IsFileContent (F.files shelf.old) (IsMessagesFile prepared.now.grammar) name.now)
        (λ other. other ≡ name.now) result }
    ensures counts { StageShelfCounts (F.faults shelf.old) (F.faults shelf.new) result }
    ensures kept { F.files shelf.new ≡ F.files shelf.old }
{
    let files = MessagesFiles {
        grammar: &prepared.grammar,
        table: &prepared.tabled.halting,
    };
    read_file(alloc, shelf, &files, name)
}

/// Reads the entries of the named messages file, which may be for another version of the grammar.
pub fn read_loose_file<F: Shelf>(
    alloc: Global,
    shelf: &mut F,
    name: &[u8],
) -> Result<LooseFile, Stop>
    requires { F.MayAsk shelf.old name.now }
    ensures loose { FileStageGives (IsFileContent (F.files shelf.old) IsLooseFile name.now)
        (λ other. other ≡ name.now) result }
    ensures counts { StageShelfCounts (F.faults shelf.old) (F.faults shelf.new) result }
    ensures kept { F.files shelf.new ≡ F.files shelf.old }
{
    let files = LooseFiles;
    read_file(alloc, shelf, &files, name)
}

/// Reads the blocks of the named messages file, of which nothing need be right.
pub fn read_examined_file<F: Shelf>(
    alloc: Global,
    shelf: &mut F,
    name: &[u8],
) -> Result<LooseBlocks, Stop>
    requires { F.MayAsk shelf.old name.now }
    ensures blocks { FileStageGives (IsFileContent (F.files shelf.old) AreLooseBlocks name.now)
        (λ other. other ≡ name.now) result }
    ensures counts { StageShelfCounts (F.faults shelf.old) (F.faults shelf.new) result }
    ensures kept { F.files shelf.new ≡ F.files shelf.old }
{
    let files = ExaminedFiles;
    read_file(alloc, shelf, &files, name)
}
