//! A sink over a writer.
ghost use Rattle.std.specs.Prelude.{◌≡◌, ◌<◌, length, None, IfOk};
ghost use Rattle.std.specs.Io.{WritesAtMost};
ghost use Rattle.std.specs.Io.KnownBytes.{WriteAppends};
ghost use Rattle.udp_io.specs.Faults.{HasCause};
ghost use Rattle.udp_io.specs.StdSink.{inner_writer, writer_faults};

use crate::{Sink, SinkFault};
use std::io::Write;

/// Standard output, or any other writer. It tells none of the bytes. A write that takes none of
/// them fails.
#[derive(Drop)]
pub struct StdSink<W: Write> {
    writer: W,
    faults: u64,
}

impl<W: Write> StdSink<W> {
    /// The writer that the runtime hands out.
    pub fn new(writer: W) -> Self
        ensures writer { inner_writer result ≡ writer }
        ensures faults { writer_faults result ≡ 0 }
    {
        StdSink { writer, faults: 0 }
    }
}

impl<W: Write> Sink for StdSink<W> {
    ghost written = { λ _. None };

    ghost faults = { writer_faults };

    fn put(&mut self, bytes: &[u8]) -> Result<usize, SinkFault>
        ensures bound { WritesAtMost result bytes.now }
        ensures progress { IfOk result (λ n. 0 < length bytes.now → 0 < n) }
        ensures cause { HasCause (writer_faults self.old) (writer_faults self.new) result }

        // The bytes are handed on to the writer.
        ensures handed { WriteAppends
            (W.contents (inner_writer self.old))
            (W.contents (inner_writer self.new)) result bytes.now }
    {
        match self.writer.write(bytes) {
            Ok(count) if count > 0 || bytes.is_empty() => Ok(count),
            _ => {
                self.faults = self.faults.saturating_add(1);
                Err(SinkFault)
            }
        }
    }
}
