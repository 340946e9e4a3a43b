//! The source over a real reader.
ghost use Rattle.std.specs.Prelude.{◌≡◌, ◌<◌, length, None, IfOk, ⊤};
ghost use Rattle.std.specs.Io.{ReadsAtMost};
ghost use Rattle.std.specs.Io.KnownBytes.{ReadConsumes};
ghost use Rattle.mh_outside.specs.Faults.{CountsFault};

use crate::source::{Failed, Source};
use std::alloc::{AllocError, Global};
use std::io::{BufReader, Read};

/// The number of bytes that one read of the reader asks for.
const BLOCK: usize = 64 * 1024;

/// A source over any reader, which is read a block at a time, so that reading single bytes is cheap.
#[derive(Drop)]
pub struct StdSource<R> {
    inner: BufReader<R>,
    faults: u64,
}

impl<R: Read + Drop> StdSource<R> {
    ghost use Rattle.mh_outside.specs.Adapters.{IsFresh};

    /// Allocates the block; no read allocates memory.
    pub fn new(alloc: Global, inner: R) -> Result<Self, AllocError>
        ensures { IfOk result (λ s. IsFresh s inner) }
    {
        match BufReader::with_capacity(alloc, BLOCK, inner) {
            Ok(inner) => Ok(StdSource { inner, faults: 0 }),
            Err(_) => Err(AllocError),
        }
    }
}

impl<R: Read> Source for StdSource<R> {
    ghost use Rattle.mh_outside.specs.Adapters.{std_source_left, source_faults};

    ghost left = { λ _. None };

    ghost faults = { λ s. s.faults };

    ghost MayRead = { λ _. ⊤ };

    fn read(&mut self, buf: &mut [u8]) -> Result<usize, Failed>
        requires filled { 0 < length buf.old }
        requires asked { ⊤ }
        ensures bound { ReadsAtMost result buf.new }
        ensures bytes { ReadConsumes None None result buf.new }
        ensures may_still { IfOk result (λ _. ⊤) }
        ensures counts { CountsFault (source_faults self.old) (source_faults self.new) result }
        // More than the trait asks: the bytes read are the next of those that were buffered or left in the reader.
        ensures passed { ReadConsumes (std_source_left R.remaining self.old) (std_source_left R.remaining self.new) result buf.new }
    {
        match self.inner.read(buf) {
            Ok(count) => Ok(count),
            Err(_) => {
                self.faults = self.faults.saturating_add(1);
                Err(Failed)
            }
        }
    }
}
