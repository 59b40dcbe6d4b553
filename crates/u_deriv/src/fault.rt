ghost use Rattle.std.specs.Prelude.{◌≡◌};
ghost use Rattle.u_deriv.specs.declared.fault.StepFault.TheVariants as fault;

use std::alloc::AllocError;

/// Why a step is not made.
#[derive(Clone, Copy, Debug, PartialEq, Eq)]
pub enum StepFault {
    /// The step has no result on the term.
    NoResult,
    NoMemory,
}

impl From<AllocError> for StepFault {
    ghost from_gives = { λ _ result. result ≡ fault.NoMemory };

    fn from(_: AllocError) -> StepFault {
        StepFault::NoMemory
    }
}
