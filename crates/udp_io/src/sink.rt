//! Where bytes are written to.
ghost use Rattle.std.specs.Prelude.{◌<◌, List, ℕ, length, Option, IfOk};
ghost use Rattle.std.specs.Io.{WritesAtMost};
ghost use Rattle.udp_io.specs.Faults.{HasCause};
ghost use Rattle.udp_io.specs.Writing.{PutGrows};

/// Bytes could not be written.
#[derive(Clone, Copy, Debug, PartialEq, Eq)]
pub struct SinkFault;

/// A place that bytes are appended to.
pub trait Sink {
    /// What it holds, where the sink tells it.
    ghost written: { Self → Option (List ℕ) };

    /// How often the sink has failed. The count stops at the last value of a `u64`.
    ghost faults: { Self → ℕ };

    /// Appends the first of these bytes, at least one where there are any, and answers how many.
    fn put(&mut self, bytes: &[u8]) -> Result<usize, SinkFault>
        ensures bound { WritesAtMost result bytes.now }
        ensures progress { IfOk result (λ n. 0 < length bytes.now → 0 < n) }
        ensures appended { PutGrows (written self.old) (written self.new) result bytes.now }
        ensures cause { HasCause (faults self.old) (faults self.new) result };
}
