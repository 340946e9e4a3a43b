//! A sink in memory.
ghost use Rattle.std.specs.Prelude.{◌≡◌, ◌<◌, [], length, is_err, Some, IfOk, ⊤};
ghost use Rattle.std.specs.Io.{WritesAtMost};
ghost use Rattle.std.specs.Io.KnownBytes.{WriteAppends};
ghost use Rattle.mh_outside.specs.Faults.{CountsFault};
ghost use Rattle.mh_outside.specs.Schedule.{no_calls, fails_next, after_call};

use crate::schedule::FaultSchedule;
use crate::sink::Sink;
use crate::source::Failed;
use std::alloc::Global;

/// An output in memory. Lack of memory is a fault of the device.
#[derive(Drop)]
pub struct MemSink {
    bytes: Vec<u8>,
    schedule: FaultSchedule,
}

impl MemSink {
    ghost use Rattle.mh_outside.specs.Fakes.{sink_written, sink_calls};

    /// An empty output. Its writes with the numbers in `fails`, counted from 1, fail.
    pub fn new(alloc: Global, fails: Vec<u64>) -> Self
        ensures written { sink_written result ≡ [] }
        ensures calls { sink_calls result ≡ no_calls fails.items }
    {
        MemSink {
            bytes: Vec::new(alloc),
            schedule: FaultSchedule::new(fails),
        }
    }

    /// The bytes written so far.
    pub fn written(&self) -> &[u8]
        ensures { result.now ≡ sink_written self.now }
    {
        &self.bytes
    }
}

impl Sink for MemSink {
    ghost use Rattle.mh_outside.specs.Fakes.{sink_written, sink_calls, NeedsMemory, WritesOrFails};

    ghost written = { λ s. Some s.bytes.items };

    ghost faults = { λ s. s.schedule.faults };

    ghost MayWrite = { λ _. ⊤ };

    fn write(&mut self, piece: &[u8]) -> Result<usize, Failed>
        requires filled { 0 < length piece.now }
        requires asked { ⊤ }
        ensures some { IfOk result (λ n. 0 < n) }
        ensures bound { WritesAtMost result piece.now }
        ensures bytes { WriteAppends (Some (sink_written self.old)) (Some (sink_written self.new)) result piece.now }
        ensures may_still { IfOk result (λ _. ⊤) }
        ensures counts { CountsFault (sink_calls self.old).faults (sink_calls self.new).faults result }
        ensures fails { WritesOrFails (fails_next (sink_calls self.old)) (length piece.now) (NeedsMemory self.old piece.now) result }
        ensures calls { sink_calls self.new ≡ after_call (is_err result) (sink_calls self.old) }
    {
        if self.schedule.begin_call() {
            return Err(Failed);
        }
        if self.bytes.extend_from_slice(piece).is_err() {
            self.schedule.count_fault();
            return Err(Failed);
        }
        Ok(piece.len())
    }
}
