//! Whole texts into a sink.
ghost use Rattle.std.specs.Prelude.{OnOk, OnErr};
ghost use Rattle.udp_io.specs.Faults.{HasCause};
ghost use Rattle.udp_io.specs.Writing.{Grows, GrowsByPrefix};

use crate::{Sink, SinkFault};

/// Appends all of these bytes. A fault leaves a prefix of them appended.
pub fn write_all<K: Sink>(out: &mut K, bytes: &[u8]) -> Result<(), SinkFault>
    ensures ok { OnOk result (Grows (K.written out.old) (K.written out.new) bytes.now) }
    ensures fault { OnErr result (GrowsByPrefix (K.written out.old) (K.written out.new) bytes.now) }
    ensures cause { HasCause (K.faults out.old) (K.faults out.new) result }
{
    let mut done = 0;
    while done < bytes.len() {
        done += out.put(&bytes[done..])?;
    }
    Ok(())
}
