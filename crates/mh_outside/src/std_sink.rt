//! The sink over a real writer.
ghost use Rattle.std.specs.Prelude.{◌≡◌, ◌<◌, length, None, IfOk, ⊤};
ghost use Rattle.std.specs.Io.{WritesAtMost};
ghost use Rattle.std.specs.Io.KnownBytes.{WriteAppends};
ghost use Rattle.mh_outside.specs.Faults.{CountsFault};
ghost use Rattle.mh_outside.specs.code.Written.{PassesOn};

use crate::sink::Sink;
use crate::source::Failed;
use std::io::Write;

/// A sink over any writer, which is flushed after each write. A flush that fails and a write of no byte are faults.
#[derive(Drop)]
pub struct StdSink<W> {
    inner: W,
    faults: u64,
}

impl<W: Write> StdSink<W> {
    ghost use Rattle.mh_outside.specs.Adapters.{sink_inner, sink_faults};

    /// A sink that writes to this writer.
    pub fn new(inner: W) -> Self
        ensures inner { sink_inner result ≡ inner }
        ensures faults { sink_faults result ≡ 0 }
    {
        StdSink { inner, faults: 0 }
    }
}

/// Writes and flushes. It also fails if the writer took no byte.
fn write_flushed<W: Write>(inner: &mut W, piece: &[u8]) -> Result<usize, Failed>
    ensures some { IfOk result (λ n. 0 < n) }
    ensures bound { WritesAtMost result piece.now }
    ensures passed { PassesOn (W.contents inner.old) (W.contents inner.new) piece.now result }
{
    let Ok(count) = inner.write(piece) else {
        return Err(Failed);
    };
    if inner.flush().is_err() || count == 0 {
        return Err(Failed);
    }
    Ok(count)
}

impl<W: Write> Sink for StdSink<W> {
    ghost use Rattle.mh_outside.specs.Adapters.{sink_inner, sink_faults};

    ghost written = { λ _. None };

    ghost faults = { λ s. s.faults };

    ghost MayWrite = { λ _. ⊤ };

    fn write(&mut self, piece: &[u8]) -> Result<usize, Failed>
        requires filled { 0 < length piece.now }
        requires asked { ⊤ }
        ensures some { IfOk result (λ n. 0 < n) }
        ensures bound { WritesAtMost result piece.now }
        ensures bytes { WriteAppends None None result piece.now }
        ensures may_still { IfOk result (λ _. ⊤) }
        ensures counts { CountsFault (sink_faults self.old) (sink_faults self.new) result }
        // The bytes reach the writer.
        ensures passed { PassesOn (W.contents (sink_inner self.old)) (W.contents (sink_inner self.new)) piece.now result }
    {
        let result = write_flushed(&mut self.inner, piece);
        if result.is_err() {
            self.faults = self.faults.saturating_add(1);
        }
        result
    }
}
