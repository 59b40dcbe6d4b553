//! What the calls on whole texts answer over a store and a sink that never fail.
ghost use Rattle.std.specs.Prelude.{◌≡◌, ◌<◌, ◌≤◌, length, IfOk, IsOk, IsErrOf};
ghost use Rattle.udp_io.specs.Texts.{text_of};
ghost use Rattle.udp_io.specs.SureSink.{sure_written};
ghost use Rattle.udp_io.specs.Writing.{Grows};

use crate::{ReadAllFault, SinkFault, SureSink, SureStore, read_all, write_all};
use std::alloc::Global;

/// Over a store that never fails `read_all` gives the text, or says that it is too long.
pub fn read_all_over_sure_store(
    alloc: Global,
    store: &mut SureStore,
    name: &str,
    limit: usize,
) -> Result<Vec<u8>, ReadAllFault>
    requires { limit < usize.MAX }
    ensures whole { let text = text_of store.old.texts name.now in
        IfOk result (λ whole. (whole.items ≡ text) × (length text ≤ limit)) }
    ensures too_long { IsErrOf result ReadAllFault.TooLong
        → limit < length (text_of store.old.texts name.now) }
    ensures sure { IsErrOf result ReadAllFault.ReadFault → ⊥ }
{
    read_all(alloc, store, name, limit)
}

/// Over a sink that never fails `write_all` appends all of the bytes.
pub fn write_all_over_sure_sink(out: &mut SureSink, bytes: &[u8]) -> Result<(), SinkFault>
    ensures sure { IsOk result }
    ensures written { Grows (sure_written out.old) (sure_written out.new) bytes.now }
{
    write_all(out, bytes)
}
