//! Table files: the content that the bytes of a file spell, and the refusal of bytes that spell none.
ghost use Rattle.std.specs.Prelude.{◌≡◌, ◌<◌, ◌^◌, ◌++◌, IfOk, codes, decimal, length, string_bytes};
ghost use Rattle.mh_top_drive.specs.code.StageCalls.{StopsWith, StageGives};
ghost use Rattle.mh_top_drive.specs.declared.stop.Cause.TheVariants.{Refused};
ghost use Rattle.mh_top_prepare.specs.TableFileContent.{IsTableFile};
ghost use Rattle.mh_top_prepare.specs.TableFileTexts.{table_fault_line};
ghost use Rattle.mh_tabfile_read.specs.declared.reading.TabFault.TheVariants.{TabShape};

use mh_tabfile_form::RawTable;
use mh_tabfile_read::{TabFault, read_tables};
use mh_top_drive::{FileFormat, Stop, refused};
use std::alloc::{AllocError, Global};

/// The form of table files.
pub(crate) struct TableFiles;

/// The part of the refusal after the name of the file.
fn place_of(alloc: Global, line: u32) -> Result<String, AllocError>
    ensures { IfOk result (λ text. string_bytes text ≡ codes ":" ++ (decimal line ++ codes ": shape\n")) }
{
    format!(in alloc; ":{line}: shape\n")
}

/// The refusal of a file with a line that has no allowed form, by the number of the line, from 1.
fn no_table(alloc: Global, name: &[u8], line: u32) -> Stop
    ensures { StopsWith (Refused (table_fault_line name.now (TabShape line))) result }
{
    match place_of(alloc, line) {
        Ok(place) => refused(alloc, b"menhir: ", name, place.as_bytes()),
        Err(_) => Stop::OutOfMemory,
    }
}

/// The content that the bytes of the named file spell, or the refusal of the file.
fn raw_in(alloc: Global, name: &[u8], bytes: &[u8]) -> Result<RawTable, Stop>
    requires { length bytes.now < 2 ^ 31 }
    ensures { StageGives (IsTableFile name.now bytes.now) result }
{
    match read_tables(alloc, bytes) {
        Ok(raw) => Ok(raw),
        Err(TabFault::Version) => Err(refused(alloc, b"menhir: ", name, b": version\n")),
        Err(TabFault::TabShape { line }) => Err(no_table(alloc, name, line)),
        Err(TabFault::Memory) => Err(Stop::OutOfMemory),
    }
}

impl FileFormat<RawTable> for TableFiles {
    ghost use Rattle.mh_top_prepare.specs.TableFileContent.{IsTableFile};

    ghost Spells = { λ s. IsTableFile };

    fn spell(&self, alloc: Global, name: &[u8], bytes: Vec<u8>) -> Result<RawTable, Stop> {
        raw_in(alloc, name, bytes.as_slice())
    }
}
