//! Reads the files of a grammar with the places of their names.
ghost use Rattle.std.specs.Prelude.{◌≡◌, ◌<◌, ◌^◌, ◌++◌, ◌∷◌, [], List, length, codes, IfOk, OnOk};
ghost use Rattle.mh_lint_faults.specs.code.ReadFiles.{AreFilesRead, IsSplit, ReadsFile};
ghost use Rattle.mh_lint_findings.specs.Lines.{line, lines_of};
ghost use Rattle.mh_lint_findings.specs.code.Cursors.{AreShort};
ghost use Rattle.mh_lint_findings.specs.declared.findings.Position.TheVariants as positions;
ghost use Rattle.mh_reader_places.specs.declared.reading.PlacedModule.{PlacedModule as Placed};

use mh_grammar::{Memory, Sequence};
use mh_lint_findings::{Finding, GrammarFile, Position, finding_at};
use mh_reader_places::{Mention, PlacedFault, PlacedModule, read_placed};
use mh_rules::Module;
use std::alloc::Global;

/// The modules of files, with the names that each file mentions and its attributes that should give a cost.
#[derive(Drop)]
pub struct ReadFiles {
    pub modules: Vec<Module>,
    pub mentions: Vec<Sequence<Mention>>,
    pub bad_costs: Vec<Sequence<usize>>,
}

/// Adds the module of a file, with its places.
fn put_module(read: &mut ReadFiles, placed: PlacedModule) -> Result<(), Memory>
    ensures { OnOk result ((found : List Placed) → IsSplit found read.old → IsSplit (found ++ placed ∷ []) read.new) }
{
    read.modules.push(placed.module)?;
    read.mentions.push(placed.mentions)?;
    read.bad_costs.push(placed.bad_costs)?;
    Ok(())
}

/// Appends the syntax fault of a file.
fn put_syntax_fault(
    findings: &mut Vec<Finding<'_>>,
    file: usize,
    start: usize,
) -> Result<(), Memory>
    ensures { OnOk result (lines_of findings.new.items ≡ lines_of findings.old.items ++ line (positions.InFile file start) (codes "syntax error") ∷ []) }
{
    let at = Position::InFile { file, start };
    findings.push(finding_at(at, b"syntax error"))?;
    Ok(())
}

/// Adds a file, or appends its first syntax fault.
fn read_file(
    alloc: Global,
    read: &mut ReadFiles,
    number: usize,
    file: &GrammarFile,
    findings: &mut Vec<Finding<'_>>,
) -> Result<(), Memory>
    requires { length file.now.bytes < 2 ^ 31 }
    ensures { OnOk result (ReadsFile number file.now read.old findings.old.items read.new findings.new.items) }
{
    match read_placed(alloc, file.bytes.as_slice()) {
        Ok(placed) => put_module(read, placed),
        Err(PlacedFault::Syntax { place }) => put_syntax_fault(findings, number, place),
        Err(PlacedFault::Memory) => Err(Memory),
    }
}

/// Reads the files, and appends the first syntax fault of each file that has one.
fn put_files(
    alloc: Global,
    read: &mut ReadFiles,
    files: &[GrammarFile],
    findings: &mut Vec<Finding<'_>>,
) -> Result<(), Memory>
    requires short { AreShort files.now }
    requires nothing { IsSplit [] read.old }
    requires none { findings.old.items ≡ [] }
    ensures { OnOk result (AreFilesRead files.now read.new findings.new.items) }
{
    for (number, file) in files.iter().enumerate() {
        read_file(alloc, read, number, file, findings)?;
    }
    Ok(())
}

/// Reads the files, and appends the first syntax fault of each file that has one. If there is no syntax fault, the
/// result has all files.
pub(crate) fn read_files(
    alloc: Global,
    files: &[GrammarFile],
    findings: &mut Vec<Finding<'_>>,
) -> Result<ReadFiles, Memory>
    requires short { AreShort files.now }
    requires none { findings.old.items ≡ [] }
    ensures { IfOk result (λ read. AreFilesRead files.now read findings.new.items) }
{
    let mut read = ReadFiles {
        modules: Vec::new(alloc),
        mentions: Vec::new(alloc),
        bad_costs: Vec::new(alloc),
    };
    put_files(alloc, &mut read, files, findings)?;
    Ok(read)
}
