//! A shelf in memory.
ghost use Rattle.std.specs.Prelude.{◌≡◌, List, ℕ, Some, ⊤};
ghost use Rattle.std.specs.Option.{option_copied};
ghost use Rattle.mh_outside.specs.Faults.{CountsShelfFault};
ghost use Rattle.mh_outside.specs.Schedule.{no_calls, fails_next, after_call};
ghost use Rattle.mh_outside.specs.Shelf.{files_of, file_at, HasDistinctNames, ReadsFile};

use crate::schedule::FaultSchedule;
use crate::shelf::{Shelf, ShelfFault};
use std::alloc::Global;

/// A shelf of files in memory.
#[derive(Drop)]
pub struct MemShelf {
    files: Vec<(Vec<u8>, Vec<u8>)>,
    schedule: FaultSchedule,
}

impl MemShelf {
    ghost use Rattle.mh_outside.specs.Fakes.{shelf_files, shelf_calls};

    /// A shelf of these files, given by name and bytes. Its calls with the numbers in `fails`, counted from 1, fail.
    pub fn new(files: Vec<(Vec<u8>, Vec<u8>)>, fails: Vec<u64>) -> Self
        requires { HasDistinctNames (files_of files.items) }
        ensures files { shelf_files result ≡ files_of files.items }
        ensures calls { shelf_calls result ≡ no_calls fails.items }
    {
        MemShelf {
            files,
            schedule: FaultSchedule::new(fails),
        }
    }
}

/// The bytes of the file with this name, if there is one.
fn file_of<'a>(files: &'a [(Vec<u8>, Vec<u8>)], name: &[u8]) -> Option<&'a [u8]>
    ensures { option_copied result ≡ file_at (files_of files.now) name.now }
{
    let mut rest = files;
    while let [file, after @ ..] = rest {
        if name == file.0.as_slice() {
            return Some(file.1.as_slice());
        }
        rest = after;
    }
    None
}

impl Shelf for MemShelf {
    ghost use Rattle.mh_outside.specs.Fakes.{shelf_files, shelf_calls, FailsExactly};

    ghost files = { λ s. Some (files_of s.files.items) };

    ghost faults = { λ s. s.schedule.faults };

    ghost MayAsk = { λ s name. ⊤ };

    fn read_file(&mut self, alloc: Global, name: &[u8], limit: usize) -> Result<Vec<u8>, ShelfFault>
        requires asked { ⊤ }
        ensures answer { ReadsFile (Some (shelf_files self.old)) name.now limit result }
        ensures kept { Some (shelf_files self.new) ≡ Some (shelf_files self.old) }
        ensures may_ask { (other : List ℕ) → ⊤ → ⊤ }
        ensures counts { CountsShelfFault (shelf_calls self.old).faults (shelf_calls self.new).faults result }
        ensures fails { FailsExactly (fails_next (shelf_calls self.old)) result }
        ensures calls { shelf_calls self.new ≡ after_call (fails_next (shelf_calls self.old)) (shelf_calls self.old) }
    {
        if self.schedule.begin_call() {
            return Err(ShelfFault::Failed);
        }
        match file_of(&self.files, name) {
            None => Err(ShelfFault::Absent),
            Some(bytes) if bytes.len() > limit => Err(ShelfFault::TooBig),
            Some(bytes) => Ok(bytes.to_vec(alloc)?),
        }
    }
}
