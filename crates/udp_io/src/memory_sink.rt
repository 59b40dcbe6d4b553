//! A sink in memory that fails by a plan.

use crate::fault_plan::FaultPlan;
use crate::{NoMemory, Sink, SinkFault};
use std::alloc::Global;
use std::marker::Model;

/// A sink in memory. It takes at most `piece` bytes at once and `room` bytes in all. The calls of
/// `put` are counted from 0: those that are listed fail, and so does one that finds the room full.
/// The count stops at the last value of a `u64`.
#[derive(Drop)]
pub struct MemSink {
    bytes: Vec<u8>,
    piece: usize,
    room: usize,
    plan: FaultPlan,
}

impl Model for MemSink {
    ghost use Rattle.std.specs.Prelude.{◌<◌, ◌≤◌, vec_len, vec_capacity};
    ghost use Rattle.udp_io.specs.MemSink.{PlannedSink};

    ghost Value = { PlannedSink };

    ghost view = { λ s. record {
      bytes = s.bytes.items;
      piece = s.piece;
      room = s.room;
      plan = s.plan;
    } };

    ghost invariant = { λ s.
        (0 < s.piece) × (vec_len s.bytes ≤ s.room) × (s.room ≤ vec_capacity s.bytes) };
}

impl MemSink {
    ghost use Rattle.std.specs.Prelude.{◌≡◌, ◌<◌, IfOk, OnOk, OnErr};
    ghost use Rattle.udp_io.specs.FaultPlan.{with_failing};
    ghost use Rattle.udp_io.specs.MemSink.{empty_sink};

    /// An empty sink. It reserves its whole room, so that writing to it takes no memory.
    pub fn new(alloc: Global, piece: usize, room: usize) -> Result<MemSink, NoMemory>
        requires { 0 < piece }
        ensures { IfOk result (λ sink. sink ≡ empty_sink piece room) }
    {
        Ok(MemSink {
            bytes: Vec::with_capacity(alloc, room)?,
            piece,
            room,
            plan: FaultPlan::new(alloc),
        })
    }

    /// Lists a call of `put` that is to fail.
    pub fn fail_at(&mut self, call: u64) -> Result<(), NoMemory>
        ensures ok { OnOk result (self.new ≡ record self.old {
          plan = with_failing self.old.plan call;
        }) }
        ensures err { OnErr result (self.new ≡ self.old) }
    {
        self.plan.fail_at(call)
    }

    /// What was written.
    pub fn bytes(&self) -> &[u8]
        ensures { result.now ≡ self.now.bytes }
    {
        &self.bytes
    }
}

// The clauses say exactly what a call answers and leaves. The others of `Sink` follow.
impl Sink for MemSink {
    ghost use Rattle.std.specs.Prelude.{◌≡◌, ◌<◌, ◌++◌, length, take, Some, is_err, IfOk};
    ghost use Rattle.std.specs.Result.{result_unwrap_or};
    ghost use Rattle.udp_io.specs.Faults.{HasCause};
    ghost use Rattle.udp_io.specs.FaultPlan.{after_call};
    ghost use Rattle.udp_io.specs.MemSink.{put_fails, put_count};

    ghost written = { λ s. Some s.bytes };

    ghost faults = { λ s. s.plan.faults };

    fn put(&mut self, bytes: &[u8]) -> Result<usize, SinkFault>
        // A listed call fails, and so does one that finds the room full.
        ensures fails { is_err result ≡ put_fails self.old }
        ensures count { IfOk result (λ n. n ≡ put_count self.old bytes.now) }
        ensures after { self.new ≡ record self.old {
          bytes = self.old.bytes ++ take (result_unwrap_or result 0) bytes.now;
          plan = after_call self.old.plan (is_err result);
        } }
        ensures progress { IfOk result (λ n. 0 < length bytes.now → 0 < n) }
        ensures cause { HasCause self.old.plan.faults self.new.plan.faults result }
    {
        let free = self.room - self.bytes.len();
        if free == 0 || self.plan.fails_next() {
            self.plan.count_failed();
            return Err(SinkFault);
        }
        self.plan.count_passed();
        let count = bytes.len().min(self.piece).min(free);
        self.bytes.extend_from_slice(&bytes[..count]).unwrap();
        Ok(count)
    }
}
