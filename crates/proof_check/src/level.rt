//! Terms on which steps are made.
ghost use Rattle.std.specs.Prelude.{◌≡◌, ◌+◌, ◌≤◌, ◌^◌};
ghost use Rattle.u_terms.specs.Size.{depth as depth_of};
ghost use Rattle.u_deriv.specs.Spending.{IsMeasured};
ghost use Rattle.proof_text.specs.Limits.{most_depth};
ghost use Rattle.proof_check.specs.Limits.{SidesAreSmall, sizes_for};
ghost use Rattle.proof_check.specs.TermSize.{IsSteppable};
ghost use Rattle.proof_check.specs.Refusing.{ExchangesAt};

use crate::answers::{ProofFault, Stop};
use crate::sized::SizedTerm;
use std::alloc::Global;
use u_deriv::{Measured, Place, Step, StepFault};
use u_terms::Facts;

/// A term on which steps are made, whose names are below a number.
#[derive(Drop)]
pub struct Level {
    pub outs: u32,
    pub term: SizedTerm,
}

impl Level {
    /// Exchanges the sides of the step on this line, and tells where. The step's arguments are used up.
    pub fn exchange(
        &mut self,
        alloc: Global,
        facts: &Facts,
        step: &mut Step,
        measured: Measured,
        line: u64,
    ) -> Result<Place, Stop>
        requires steppable { IsSteppable self.old.term }
        requires shallow { self.old.outs + depth_of self.old.term + most_depth ≤ 2 ^ 32 }
        requires measured { IsMeasured facts.now step.old measured }
        requires small { SidesAreSmall (sizes_for facts.now step.old) }
        ensures exchanged { ExchangesAt facts.now self.old.outs line self.old.term step.old self.new.term result }
        ensures outs { self.new.outs ≡ self.old.outs }
    {
        match self.term.exchange(alloc, facts, self.outs, step, measured) {
            Ok(place) => Ok(place),
            Err(StepFault::NoResult) => Err(Stop::Fails { line }),
            Err(StepFault::NoMemory) => Err(Stop::Fault(ProofFault::NoMemory)),
        }
    }
}
