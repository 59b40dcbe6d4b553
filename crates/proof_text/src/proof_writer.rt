//! The text of a proof, written.
ghost use Rattle.std.specs.Prelude.{OnErr, OnOk};
ghost use Rattle.data_model.specs.Lists.{Each};
ghost use Rattle.udp_io.specs.Faults.{HasCause};
ghost use Rattle.udp_io.specs.Writing.{Grows, GrowsByPrefix};
ghost use Rattle.proof_text.specs.Sent.{Writes};
ghost use Rattle.proof_text.specs.Written.{FitsRule, ProofText, proof_text};

use crate::pending::{Pending, flush, put, put_number};
use crate::step_writer::put_steps;
use u_deriv::Step;
use u_terms::List;
use udp_io::{Sink, SinkFault};

// All of the text, of which the end may be pending.
fn put_proof<K: Sink>(out: &mut K, pending: &mut Pending, outs: u32, steps: &[Step])
    requires { Each FitsRule steps.now }
    ensures writes { Writes (K.written out.old) (K.written out.new) (K.faults out.old) (K.faults out.new) pending.old
        (proof_text outs steps.now) pending.new }
    ensures text { ProofText (proof_text outs steps.now) outs steps.now }
{
    put(out, pending, "udp-proof 1\nouts ");
    put_number(out, pending, outs);
    put(out, pending, "\n");
    put_steps(out, pending, steps);
    put(out, pending, "end\n");
}

/// Writes the text of the proof by these steps; `outs` is the width of the queries. A fault of the sink is the only one. It leaves a
/// prefix of the text written.
pub fn write_proof<K: Sink>(out: &mut K, outs: u32, steps: &List<Step>) -> Result<(), SinkFault>
    requires fit { Each FitsRule steps.now }
    ensures ok { OnOk result (Grows (K.written out.old) (K.written out.new) (proof_text outs steps.now)) }
    ensures fault { OnErr result (GrowsByPrefix (K.written out.old) (K.written out.new) (proof_text outs steps.now)) }
    ensures cause { HasCause (K.faults out.old) (K.faults out.new) result }

    // It is the one text of these steps, whether or not all of it is written.
    ensures text { ProofText (proof_text outs steps.now) outs steps.now }
{
    let mut pending = Pending::new();
    put_proof(out, &mut pending, outs, steps.as_slice());
    flush(out, &mut pending);
    if pending.failed() {
        Err(SinkFault)
    } else {
        Ok(())
    }
}
