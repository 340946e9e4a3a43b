//! The shelf of the real files.
ghost use Rattle.std.specs.Prelude.{◌≡◌, ◌<◌, length, None, IfOk, vec_len, ⊤};
ghost use Rattle.mh_outside.specs.Faults.{CountsShelfFault};
ghost use Rattle.mh_outside.specs.Shelf.{ReadsFile};
ghost use Rattle.mh_outside.specs.code.Written.{ReadsUpTo};

use crate::shelf::{Shelf, ShelfFault};
use std::alloc::{AllocError, Global};
use std::fs;
use std::io::Read;
use std::rt::Files;

/// The number of bytes that one read of a file asks for.
const BLOCK: usize = 64 * 1024;

/// The real files, by their paths, which are UTF-8. Contracts do not know their content.
#[derive(Drop)]
pub struct FileShelf<'a, R: Files> {
    rt: &'a R,
    faults: u64,
}

impl<'a, R: Files> FileShelf<'a, R> {
    /// A shelf of the files that the runtime reaches.
    pub fn new(rt: &'a R) -> Self
        ensures { result.faults ≡ 0 }
    {
        FileShelf { rt, faults: 0 }
    }
}

/// Allocates the block for reads of a file.
fn make_block(alloc: Global, size: usize) -> Result<Vec<u8>, AllocError>
    ensures { IfOk result (λ block. vec_len block ≡ size) }
{
    vec![in alloc; 0u8; size]
}

/// Returns all bytes that the file has left; they are read through `block`. Unlike `read_to_end` the call distinguishes
/// lack of memory from a fault of the device.
fn read_up_to<F: Read>(
    alloc: Global,
    file: &mut F,
    limit: usize,
    block: &mut [u8],
) -> Result<Vec<u8>, ShelfFault>
    requires { 0 < length block.old }
    ensures { ReadsUpTo limit (F.remaining file.old) (F.remaining file.new) result }
{
    let mut bytes = Vec::new(alloc);
    loop {
        let Ok(count) = file.read(block) else {
            return Err(ShelfFault::Failed);
        };
        if count == 0 {
            return Ok(bytes);
        }
        if count > limit - bytes.len() {
            return Err(ShelfFault::TooBig);
        }
        bytes.extend_from_slice(&block[..count])?;
    }
}

/// Returns the bytes of the file at the path.
fn read_path<R: Files>(
    rt: &R,
    alloc: Global,
    name: &[u8],
    limit: usize,
) -> Result<Vec<u8>, ShelfFault>
    ensures { ReadsFile None name.now limit result }
{
    let Ok(path) = str::from_utf8(name) else {
        return Err(ShelfFault::Failed);
    };
    let mut block = make_block(alloc, BLOCK)?;
    let Ok(mut file) = fs::open(rt, path) else {
        return Err(ShelfFault::Failed);
    };
    read_up_to(alloc, &mut file, limit, &mut block)
}

impl<R: Files> Shelf for FileShelf<'_, R> {
    ghost files = { λ _. None };

    ghost faults = { λ s. s.faults };

    // Every file may be asked for.
    ghost MayAsk = { λ s name. ⊤ };

    fn read_file(
        &mut self,
        alloc: Global,
        name: &[u8],
        limit: usize,
    ) -> Result<Vec<u8>, ShelfFault> {
        let result = read_path(self.rt, alloc, name, limit);
        if let Err(ShelfFault::Failed) = result {
            self.faults = self.faults.saturating_add(1);
        }
        result
    }
}
