//! What a check of a proof answers.
ghost use Rattle.std.specs.Prelude.{◌≡◌};
ghost use Rattle.proof_check.specs.declared.answers.ProofFault.TheVariants as the_fault;
ghost use Rattle.proof_check.specs.declared.answers.Stop.TheVariants as the_stop;

use crate::limits::Passed;
use proof_text::LimitKind;
use std::alloc::AllocError;
use thiserror::Error;

/// What a proof shows of two terms.
#[derive(Clone, Copy, Debug, PartialEq, Eq)]
pub enum Verdict {
    /// Its steps lead from the one to the other.
    Proved,
    /// The step on this line, counted from 1, has no result, or the inner steps that this line closes end elsewhere.
    StepFails { line: u64 },
    /// Its steps lead from the one to another term.
    EndDiffers,
}

/// Why a proof shows nothing.
#[derive(Clone, Copy, Debug, PartialEq, Eq, Error)]
pub enum ProofFault {
    /// The first line is not `udp-proof `, a number and a line feed.
    #[error("the first line is no header")]
    BadHeader,
    /// That number is not 1.
    #[error("the version of the proof is not known")]
    BadVersion,
    /// The second line is not `outs `, the width of the queries and a line feed.
    #[error("the second line is not the width of the queries")]
    BadOuts,
    /// No line goes on with the byte at this column of this line, both counted from 1.
    #[error("no line goes on at line {line} column {column}")]
    BadLine { line: u64, column: u64 },
    /// The text ends before its line `end`.
    #[error("the proof has no end")]
    NoEnd,
    /// A line follows the line `end`.
    #[error("a line follows the end of the proof")]
    AfterEnd,
    /// A limit is passed, by this count.
    #[error("a limit is passed by {count}")]
    Limit { what: LimitKind, count: u64 },
    #[error("out of memory")]
    NoMemory,
}

/// Why no line is judged any more.
#[derive(Clone, Copy, Debug, PartialEq, Eq)]
pub enum Stop {
    /// The step on this line, counted from 1, has no result, or the inner steps that this line closes end elsewhere.
    Fails { line: u64 },
    Fault(ProofFault),
}

impl From<AllocError> for ProofFault {
    ghost from_gives = { λ _ fault. fault ≡ the_fault.NoMemory };

    fn from(_: AllocError) -> ProofFault {
        ProofFault::NoMemory
    }
}

impl From<AllocError> for Stop {
    ghost from_gives = { λ _ stop. stop ≡ the_stop.Fault the_fault.NoMemory };

    fn from(_: AllocError) -> Stop {
        Stop::Fault(ProofFault::NoMemory)
    }
}

impl From<Passed> for Stop {
    ghost from_gives = { λ passed stop. stop ≡ the_stop.Fault (the_fault.Limit passed.what passed.count) };

    fn from(passed: Passed) -> Stop {
        Stop::Fault(ProofFault::Limit {
            what: passed.what,
            count: passed.count,
        })
    }
}
