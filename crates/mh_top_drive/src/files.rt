//! Reads files from a shelf, one after the other. The content of each file is found before the next file is read.
ghost use Rattle.std.specs.Prelude.{◌≡◌, ◌<◌, ◌≤◌, ◌^◌, List, ℕ, length, IfOk};
ghost use Rattle.std.specs.List.{All};
ghost use Rattle.mh_grammar.specs.Text.{Text};
ghost use Rattle.mh_top_drive.specs.StageResults.{StageResult};
ghost use Rattle.mh_top_drive.specs.FileContents.{AreFileContents, IsFileContent, IsLoaded};
ghost use Rattle.mh_top_drive.specs.NextFile.{IsNextFile};
ghost use Rattle.mh_top_drive.specs.code.StageCalls.{FileStageGives, StopsWith, ShelfFailsAt, StageShelfCounts, StageGives, list_result};
ghost use Rattle.mh_top_drive.specs.declared.stop.Cause.TheVariants.{Missing, LongFile};
ghost use Rattle.mh_top_drive.specs.Limits.{file_limit};

use crate::stop::{Cause, Stop};
use mh_grammar::{Name, from_bytes};
use mh_outside::{Shelf, ShelfFault};
use std::alloc::Global;

/// The longest file, in bytes: 16 MiB.
pub const FILE_LIMIT: usize = 16 * 1024 * 1024;

/// A form of files, for example grammar files: it says which value the bytes of a file spell.
pub trait FileFormat<T> {
    /// The relation between the name and the bytes of a file and its content, or the cause for which the work stops.
    ghost Spells: { Self → Text → Text → StageResult T → Type 0 };

    /// The content of the named file, which has these bytes. The content can keep the vector, which spares a copy.
    fn spell(&self, alloc: Global, name: &[u8], bytes: Vec<u8>) -> Result<T, Stop>
        requires { length bytes.items < 2 ^ 31 }
        ensures { StageGives (Spells self.now name.now bytes.items) result };
}

/// The reason to stop the work for a missing file.
fn missing(alloc: Global, name: &[u8]) -> Stop
    ensures { StopsWith (Missing name.now) result }
{
    match from_bytes(alloc, name) {
        Ok(name) => Stop::Halted {
            cause: Cause::Missing { name },
        },
        Err(_) => Stop::OutOfMemory,
    }
}

/// The reason to stop the work for a file over the limit.
fn long_file(alloc: Global, name: &[u8]) -> Stop
    ensures { StopsWith (LongFile name.now) result }
{
    match from_bytes(alloc, name) {
        Ok(name) => Stop::Halted {
            cause: Cause::LongFile { name },
        },
        Err(_) => Stop::OutOfMemory,
    }
}

/// The reason to stop the work if the shelf fails at the named file.
fn shelf_failed(alloc: Global, name: &[u8]) -> Stop
    ensures { ShelfFailsAt name.now result }
{
    match from_bytes(alloc, name) {
        Ok(name) => Stop::ShelfFailed { name },
        Err(_) => Stop::OutOfMemory,
    }
}

/// Reads the bytes of the named file.
fn load<F: Shelf>(alloc: Global, shelf: &mut F, name: &[u8]) -> Result<Vec<u8>, Stop>
    requires asked { F.MayAsk shelf.old name.now }
    ensures bytes { FileStageGives (IsLoaded (F.files shelf.old) name.now) (λ other. other ≡ name.now) (list_result result) }
    ensures short { IfOk result (λ bytes. length bytes.items ≤ file_limit) }
    ensures kept { F.files shelf.new ≡ F.files shelf.old }
    ensures may_ask { (other : List ℕ) → F.MayAsk shelf.old other → F.MayAsk shelf.new other }
    ensures counts { StageShelfCounts (F.faults shelf.old) (F.faults shelf.new) result }
{
    match shelf.read_file(alloc, name, FILE_LIMIT) {
        Ok(bytes) => Ok(bytes),
        Err(ShelfFault::Absent) => Err(missing(alloc, name)),
        Err(ShelfFault::TooBig) => Err(long_file(alloc, name)),
        Err(ShelfFault::Memory) => Err(Stop::OutOfMemory),
        Err(ShelfFault::Failed) => Err(shelf_failed(alloc, name)),
    }
}

/// Reads the named file, and gives its content.
pub fn read_file<F: Shelf, T: Drop, S: FileFormat<T>>(
    alloc: Global,
    shelf: &mut F,
    spelling: &S,
    name: &[u8],
) -> Result<T, Stop>
    requires asked { F.MayAsk shelf.old name.now }
    ensures item { FileStageGives (IsFileContent (F.files shelf.old) (S.Spells spelling.now) name.now) (λ other. other ≡ name.now) result }
    ensures kept { F.files shelf.new ≡ F.files shelf.old }
    ensures may_ask { (other : List ℕ) → F.MayAsk shelf.old other → F.MayAsk shelf.new other }
    ensures counts { StageShelfCounts (F.faults shelf.old) (F.faults shelf.new) result }
{
    match load(alloc, shelf, name) {
        Ok(bytes) => spelling.spell(alloc, name, bytes),
        Err(stop) => Err(stop),
    }
}

/// Reads the named files in order, and gives the content of each. Reading ends at the first file without a content.
pub fn read_files<F: Shelf, T: Drop, S: FileFormat<T>>(
    alloc: Global,
    shelf: &mut F,
    spelling: &S,
    names: &[Name],
) -> Result<Vec<T>, Stop>
    requires asked { All (F.MayAsk shelf.old) names.now }
    ensures items { FileStageGives (AreFileContents (F.files shelf.old) (S.Spells spelling.now) names.now)
        (IsNextFile (F.files shelf.old) (S.Spells spelling.now) names.now) (list_result result) }
    ensures may_ask { IfOk result (λ items. (other : List ℕ) → F.MayAsk shelf.old other → F.MayAsk shelf.new other) }
    ensures kept { F.files shelf.new ≡ F.files shelf.old }
    ensures counts { StageShelfCounts (F.faults shelf.old) (F.faults shelf.new) result }
{
    let mut items = Vec::new(alloc);
    for name in names {
        match read_file(alloc, shelf, spelling, name.as_slice()) {
            Ok(item) => items.push(item)?,
            Err(stop) => return Err(stop),
        }
    }
    Ok(items)
}
