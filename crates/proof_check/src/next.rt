//! What each line of a proof makes of the steps so far.
ghost use Rattle.std.specs.Prelude.{IfOk};
ghost use Rattle.proof_text.specs.LinesOfText.{fed};
ghost use Rattle.proof_check.specs.Kept.{AreKept, IsTaken, progress_of};

use crate::answers::{ProofFault, Stop};
use crate::part::Part;
use crate::steps::Steps;
use proof_text::{Line, read_outs, read_version};
use std::alloc::Global;
use u_terms::Facts;

/// Judges a line that is to be of this part, and tells of what part the next one is to be.
pub fn next_part(
    alloc: Global,
    facts: &Facts,
    outs: u32,
    part: Part,
    steps: &mut Steps,
    line: Line<'_>,
) -> Result<Part, Stop>
    requires { AreKept outs part steps.old }
    ensures taken { IsTaken facts.now outs line.entry.number (progress_of part steps.old) (fed line.entry.text.now line.entry.ended) steps.new result }
    ensures kept { IfOk result (λ next. AreKept outs next steps.new) }
{
    match part {
        Part::Version => match read_version(line.text, line.ended) {
            Some(1) => Ok(Part::Width),
            Some(_) => Err(Stop::Fault(ProofFault::BadVersion)),
            None => Err(Stop::Fault(ProofFault::BadHeader)),
        },
        Part::Width => match read_outs(line.text, line.ended) {
            Some(width) if width == outs => Ok(Part::Steps),
            _ => Err(Stop::Fault(ProofFault::BadOuts)),
        },
        Part::Steps => steps.take(alloc, facts, line),
        Part::Ended => Err(Stop::Fault(ProofFault::AfterEnd)),
    }
}
