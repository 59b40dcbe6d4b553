//! A sink in memory that never fails.

use crate::{NoMemory, Sink, SinkFault};
use std::alloc::Global;
use std::marker::Model;

/// A sink in memory that never fails. It keeps the first `room` bytes, and tells what was written
/// while no more came.
#[derive(Drop)]
pub struct SureSink {
    kept: Vec<u8>,
    room: usize,
    is_over: bool,
}

impl Model for SureSink {
    ghost use Rattle.std.specs.Prelude.{◌≤◌, vec_len, vec_capacity};
    ghost use Rattle.udp_io.specs.SureSink.{FaultlessSink};

    ghost Value = { FaultlessSink };

    ghost view = { λ s. record { kept = s.kept.items; room = s.room; is_over = s.is_over } };

    ghost invariant = { λ s. (vec_len s.kept ≤ s.room) × (s.room ≤ vec_capacity s.kept) };
}

impl SureSink {
    ghost use Rattle.std.specs.Prelude.{◌≡◌, IfOk};
    ghost use Rattle.udp_io.specs.SureSink.{empty_sure_sink};

    /// An empty sink. It reserves its whole room, so that writing to it takes no memory.
    pub fn new(alloc: Global, room: usize) -> Result<SureSink, NoMemory>
        ensures { IfOk result (λ sink. sink ≡ empty_sure_sink room) }
    {
        Ok(SureSink {
            kept: Vec::with_capacity(alloc, room)?,
            room,
            is_over: false,
        })
    }

    /// The first `room` bytes that were written.
    pub fn bytes(&self) -> &[u8]
        ensures { result.now ≡ self.now.kept }
    {
        &self.kept
    }
}

// The clauses say exactly what a call answers and leaves. The others of `Sink` follow.
impl Sink for SureSink {
    ghost use Rattle.std.specs.Prelude.{◌≡◌, length};
    ghost use Rattle.udp_io.specs.Writing.{PutGrows};
    ghost use Rattle.udp_io.specs.SureSink.{sure_written, with_bytes};

    ghost written = { sure_written };

    ghost faults = { λ _. 0 };

    fn put(&mut self, bytes: &[u8]) -> Result<usize, SinkFault>
        // It takes all of the bytes, and keeps what fits.
        ensures sure { result ≡ Ok (length bytes.now) }
        ensures after { self.new ≡ with_bytes self.old bytes.now }
        ensures appended { PutGrows
            (sure_written self.old) (sure_written self.new) result bytes.now }
    {
        let free = self.room - self.kept.len();
        self.is_over |= free < bytes.len();
        let count = bytes.len().min(free);
        self.kept.extend_from_slice(&bytes[..count]).unwrap();
        Ok(bytes.len())
    }
}
