//! What the program answers.
ghost use Rattle.std.specs.Prelude.{◌≡◌, IfOk};
ghost use Rattle.udp_run.specs.Answer.{code_of, status_of, text_of};
ghost use Rattle.udp_run.specs.Output.{case_status, proof_status, size_status};

use crate::output::{case_line, proof_line, size_line};
use case_core::{CaseFault, TermFault};
use proof_check::ProofFault;
use schema_read::SchemaFault;
use scope_core::ScopeFault;
use sql_cursor::ReadFault;
use std::alloc::{AllocError, Global};

/// How a run ended.
#[derive(Clone, Copy, Debug, PartialEq, Eq)]
pub enum Status {
    Done,
    NotProved,
    CaseRefused,
    ProofRefused,
    Usage,
    ReadFault,
    WriteFault,
    Limit,
    NoMemory,
}

impl Status {
    /// The exit status of the program.
    pub fn code(self) -> u8
        ensures { result ≡ code_of self }
    {
        match self {
            Status::Done => 0,
            Status::NotProved => 1,
            Status::CaseRefused => 2,
            Status::ProofRefused => 3,
            Status::Usage => 4,
            Status::ReadFault => 5,
            Status::WriteFault => 6,
            Status::Limit => 7,
            Status::NoMemory => 8,
        }
    }
}

/// What was found, before it is written.
#[derive(Debug, Drop)]
pub enum Verdict {
    Proved,
    /// The first step without a result stands on this line, counted from 1.
    StepFails { line: u64 },
    EndDiffers,
    /// The text of the case has this fault, or passes a limit.
    CaseRefused(CaseFault),
    /// A query of the case has no term.
    TermRefused(TermFault),
    /// A line of the proof is none, or passes a limit, or a line is missing.
    ProofRefused(ProofFault),
    NoSuchForm,
    CaseUnread,
    ProofUnread,
    CaseTooLong,
    ProofTooLong,
    OutOfMemory,
}

fn case_status(fault: &CaseFault) -> Status
    ensures { result ≡ case_status fault.now }
{
    match fault {
        CaseFault::Read(ReadFault::Limit { .. }) | CaseFault::Scope(ScopeFault::TooWide { .. }) => {
            Status::Limit
        }
        CaseFault::Read(ReadFault::NoMemory)
        | CaseFault::Schema(SchemaFault::NoMemory)
        | CaseFault::Scope(ScopeFault::NoMemory)
        | CaseFault::NoMemory => Status::NoMemory,
        _ => Status::CaseRefused,
    }
}

fn size_status(fault: TermFault) -> Status
    ensures { result ≡ size_status fault }
{
    match fault {
        TermFault::TooBig { .. } => Status::Limit,
        TermFault::NoMemory => Status::NoMemory,
    }
}

fn proof_status(fault: ProofFault) -> Status
    ensures { result ≡ proof_status fault }
{
    match fault {
        ProofFault::Limit { .. } => Status::Limit,
        ProofFault::NoMemory => Status::NoMemory,
        _ => Status::ProofRefused,
    }
}

impl Verdict {
    /// The line that is written, with its line feed. It is empty where memory ran out.
    pub fn line(&self, alloc: Global) -> Result<Vec<u8>, AllocError>
        ensures { IfOk result (λ line. line.items ≡ text_of self.now) }
    {
        let text = match self {
            Verdict::Proved => "proved\n",
            Verdict::StepFails { line } => {
                let line = format!(in alloc; "step fails at line {line}\n")?;
                return Ok(line.into_bytes());
            }
            Verdict::EndDiffers => "end differs\n",
            Verdict::CaseRefused(fault) => return case_line(alloc, fault),
            Verdict::TermRefused(fault) => size_line(*fault),
            Verdict::ProofRefused(fault) => return proof_line(alloc, *fault),
            Verdict::NoSuchForm => "usage: no such form of words\n",
            Verdict::CaseUnread => "read fault: case\n",
            Verdict::ProofUnread => "read fault: proof\n",
            Verdict::CaseTooLong => "limit case 1048576\n",
            Verdict::ProofTooLong => "limit proof 1073741824\n",
            Verdict::OutOfMemory => "",
        };
        Vec::from_slice(alloc, text.as_bytes())
    }

    /// The status that a run with this verdict ends with, the line once written.
    pub fn status(&self) -> Status
        ensures { result ≡ status_of self.now }
    {
        match self {
            Verdict::Proved => Status::Done,
            Verdict::StepFails { .. } | Verdict::EndDiffers => Status::NotProved,
            Verdict::CaseRefused(fault) => case_status(fault),
            Verdict::TermRefused(fault) => size_status(*fault),
            Verdict::ProofRefused(fault) => proof_status(*fault),
            Verdict::NoSuchForm => Status::Usage,
            Verdict::CaseUnread | Verdict::ProofUnread => Status::ReadFault,
            Verdict::CaseTooLong | Verdict::ProofTooLong => Status::Limit,
            Verdict::OutOfMemory => Status::NoMemory,
        }
    }
}
