//! Terms as text.
ghost use Rattle.std.specs.Prelude.{IfOk};
ghost use Rattle.proof_text.specs.Written.{FitsRule};

use crate::fault::CallFault;
use proof_text::write_proof;
use std::alloc::Global;
use u_deriv::{Path, Step};
use u_rules::{Arg, Rule};
use u_terms::{List, NoMemory, U};
use udp_io::SureSink;

/// More bytes than the text of any row's term has.
const ROOM: usize = 1_048_576;

// A step that has this argument alone.
fn step_with(alloc: Global, u: &U) -> Result<Step, NoMemory>
    ensures { IfOk result FitsRule }
{
    let args = vec![in alloc; Arg::Term(u.copy(alloc)?)]?;
    Ok(Step {
        path: Path::new(alloc),
        forward: true,
        rule: Rule::SqOne,
        args: List::from_vec(args),
        inner: List::new(alloc),
    })
}

/// The text of a term.
pub fn text(alloc: Global, u: &U) -> Result<String, CallFault> {
    let mut steps = List::new(alloc);
    steps.push(step_with(alloc, u)?)?;
    let mut sink = SureSink::new(alloc, ROOM)?;
    if write_proof(&mut sink, 0, &steps).is_err() {
        return Err(CallFault::TooLarge);
    }
    match argument(sink.bytes()) {
        Some(text) => Ok(String::from_utf8_lossy(alloc, text)?),
        None => Err(CallFault::TooLarge),
    }
}

// The argument of the one step of a proof.
fn argument(proof: &[u8]) -> Option<&[u8]> {
    proof
        .strip_prefix(b"udp-proof 1\nouts 0\n/ > sq_one ")?
        .strip_suffix(b"\nend\n")
}

/// The texts of two terms.
pub fn two_texts(alloc: Global, left: &U, right: &U) -> Result<String, CallFault> {
    let left = text(alloc, left)?;
    let right = text(alloc, right)?;
    Ok(format!(in alloc; "{left} {right}")?)
}
