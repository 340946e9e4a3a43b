//! A source in memory.
ghost use Rattle.std.specs.Prelude.{◌≡◌, ◌<◌, ◌≤◌, length, drop, min, Some, IfOk, ⊤};
ghost use Rattle.std.specs.Io.{ReadsAtMost};
ghost use Rattle.std.specs.Io.KnownBytes.{ReadConsumes};
ghost use Rattle.mh_outside.specs.Faults.{CountsFault};
ghost use Rattle.mh_outside.specs.Schedule.{no_calls, fails_next, after_call};

use crate::schedule::FaultSchedule;
use crate::source::{Failed, Source};

/// An input in memory.
#[derive(Drop)]
pub struct MemSource {
    bytes: Vec<u8>,
    at: usize,
    schedule: FaultSchedule,
    ghost within: { at ≤ length bytes.items },
}

impl MemSource {
    ghost use Rattle.mh_outside.specs.Fakes.{mem_source_left, source_calls};

    /// An input of these bytes. Its reads with the numbers in `fails`, counted from 1, fail.
    pub fn new(bytes: Vec<u8>, fails: Vec<u64>) -> Self
        ensures left { mem_source_left result ≡ bytes.items }
        ensures calls { source_calls result ≡ no_calls fails.items }
    {
        MemSource {
            bytes,
            at: 0,
            schedule: FaultSchedule::new(fails),
        }
    }
}

impl Source for MemSource {
    ghost use Rattle.mh_outside.specs.Fakes.{mem_source_left, source_calls, ReadsOrFails};

    ghost left = { λ s. Some (drop s.at s.bytes.items) };

    ghost faults = { λ s. s.schedule.faults };

    ghost MayRead = { λ _. ⊤ };

    fn read(&mut self, buf: &mut [u8]) -> Result<usize, Failed>
        requires filled { 0 < length buf.old }
        requires asked { ⊤ }
        ensures bound { ReadsAtMost result buf.new }
        ensures bytes { ReadConsumes (Some (mem_source_left self.old)) (Some (mem_source_left self.new)) result buf.new }
        ensures may_still { IfOk result (λ _. ⊤) }
        ensures counts { CountsFault (source_calls self.old).faults (source_calls self.new).faults result }
        ensures fails { ReadsOrFails (fails_next (source_calls self.old)) (min (length buf.old) (length (mem_source_left self.old))) result }
        ensures calls { source_calls self.new ≡ after_call (fails_next (source_calls self.old)) (source_calls self.old) }
    {
        if self.schedule.begin_call() {
            return Err(Failed);
        }
        let count = buf.len().min(self.bytes.len() - self.at);
        let end = self.at + count;
        buf[..count].copy_from_slice(&self.bytes[self.at..end]);
        self.at = end;
        Ok(count)
    }
}
