//! The files that a caller gives.
ghost use Rattle.std.specs.Prelude.{Some, ◌≡◌, ⊤};
ghost use Rattle.std.specs.Option.{option_copied};
ghost use Rattle.mh_outside.specs.Shelf.{file_at};
ghost use Rattle.mh_page.specs.Given.{files_given};

use crate::request::PageFile;
use mh_outside::{Shelf, ShelfFault};
use std::alloc::Global;

/// A shelf of the files that a caller gives. No read fails.
#[derive(Drop)]
pub struct FileList<'a> {
    files: &'a [PageFile<'a>],
}

impl<'a> FileList<'a> {
    ghost use Rattle.mh_page.specs.Devices.{files_listed};

    /// A shelf of these files.
    pub fn new(files: &'a [PageFile<'a>]) -> Self
        ensures { files_listed result ≡ files_given files.now }
    {
        FileList { files }
    }
}

/// The bytes of the file with this name, if there is one.
pub fn file_named<'a>(files: &[PageFile<'a>], name: &[u8]) -> Option<&'a [u8]>
    ensures { option_copied result ≡ file_at (files_given files.now) name.now }
{
    let mut rest = files;
    while let [file, after @ ..] = rest {
        if name == file.name {
            return Some(file.text);
        }
        rest = after;
    }
    None
}

impl Shelf for FileList<'_> {
    ghost files = { λ s. Some (files_given s.files.now) };

    ghost faults = { λ _. 0 };

    ghost MayAsk = { λ s name. ⊤ };

    fn read_file(
        &mut self,
        alloc: Global,
        name: &[u8],
        limit: usize,
    ) -> Result<Vec<u8>, ShelfFault> {
        match file_named(self.files, name) {
            None => Err(ShelfFault::Absent),
            Some(bytes) if bytes.len() > limit => Err(ShelfFault::TooBig),
            Some(bytes) => Ok(bytes.to_vec(alloc)?),
        }
    }
}
