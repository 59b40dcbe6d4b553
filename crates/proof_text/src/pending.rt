//! Bytes on their way to a sink.
ghost use Rattle.std.specs.Prelude.{◌≡◌, ◌≤◌, [], false, length, decimal};
ghost use Rattle.proof_text.specs.Sent.{Unsent, Writes};

use arrayvec::ArrayString;
use itoa::Buffer;
use std::marker::Model;
use udp_io::{Sink, write_all};

/// How many bytes are gathered before they are handed on.
const ROOM: usize = 512;

/// Bytes that were written and not yet handed on. Once the sink has failed it is left alone, and what is written is dropped.
#[derive(Drop)]
pub struct Pending {
    text: ArrayString<ROOM>,
    failed: bool,
}

impl Model for Pending {
    ghost use Rattle.proof_text.specs.Sent.{Unsent};

    ghost Value = { Unsent };

    ghost view = { λ p. record { bytes = p.text.bytes; failed = p.failed } };
}

impl Pending {
    /// None so far.
    pub fn new() -> Pending
        ensures { result ≡ record { bytes = []; failed = false } }
    {
        Pending {
            text: ArrayString::new(),
            failed: false,
        }
    }

    /// Whether the sink has failed.
    pub fn failed(&self) -> bool
        ensures { result ≡ self.now.failed }
    {
        self.failed
    }
}

/// Hands all of them on.
pub fn flush<K: Sink>(out: &mut K, pending: &mut Pending)
    ensures writes { Writes (K.written out.old) (K.written out.new) (K.faults out.old) (K.faults out.new) pending.old [] pending.new }
    ensures empty { pending.new.failed ≡ false → pending.new.bytes ≡ [] }
{
    if pending.failed {
        return;
    }
    if write_all(out, pending.text.as_str().as_bytes()).is_ok() {
        pending.text.clear();
    } else {
        pending.failed = true;
    }
}

/// Writes a short text.
pub fn put<K: Sink>(out: &mut K, pending: &mut Pending, text: &str)
    requires { length text.now ≤ 40 }
    ensures { Writes (K.written out.old) (K.written out.new) (K.faults out.old) (K.faults out.new) pending.old text.now pending.new }
{
    if pending.text.try_push_str(text).is_err() {
        flush(out, pending);
        let _ = pending.text.try_push_str(text);
    }
}

/// Writes a number in decimal.
pub fn put_number<K: Sink>(out: &mut K, pending: &mut Pending, number: u32)
    ensures { Writes (K.written out.old) (K.written out.new) (K.faults out.old) (K.faults out.new) pending.old (decimal number) pending.new }
{
    put(out, pending, Buffer::new().format(number));
}
