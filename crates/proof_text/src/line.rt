//! Lines of proofs.
ghost use Rattle.std.specs.Prelude.{◌≡◌, ◌+◌, ◌<◌, ◌^◌, IfOk};
ghost use Rattle.proof_text.specs.LinesOfText.{fed};
ghost use Rattle.proof_text.specs.ReadingLines.{IsAnswer};
ghost use Rattle.proof_text.specs.Faults.{fault_of};
ghost use Rattle.proof_text.specs.Over.{line_over, said_over};
ghost use Rattle.proof_text.specs.Written.{Says, text_of};

use crate::cursor::{Cursor, Stop};
use crate::limits::{LimitKind, MOST_DEPTH, MOST_NODES};
use crate::step::whole_line;
use std::alloc::Global;
use thiserror::Error;
use u_deriv::Step;

/// What a line says.
#[derive(Drop)]
pub enum LineStep {
    /// A step without inner steps.
    Whole(Step),
    /// A step of `sq_fix`, whose inner steps follow.
    Opens(Step),
    /// The inner steps end.
    Closes,
    /// The proof ends.
    Ends,
}

/// What kind of line was read over a step.
#[derive(Clone, Copy, Debug, PartialEq, Eq)]
pub enum LineKind {
    /// The kept step is what it says, without inner steps.
    Whole,
    /// The kept step is what it says, one of `sq_fix`, whose inner steps follow.
    Opens,
    /// The inner steps end.
    Closes,
    /// The proof ends.
    Ends,
}

/// Why bytes are no line.
#[derive(Clone, Copy, Debug, PartialEq, Eq, Error)]
pub enum LineFault {
    /// No line goes on with the byte at this column, counted from 1; behind the last byte where the line is cut.
    #[error("no line goes on at column {column}")]
    Bad { column: u64 },
    /// An argument passes this limit, with this count.
    #[error("an argument passes a limit with {count}")]
    Limit { what: LimitKind, count: u64 },
    /// There was no memory for what the line says.
    #[error("out of memory")]
    NoMemory,
}

// Why a reader that stopped behind so many bytes did not go on.
fn fault(stop: Stop, passed: u64) -> LineFault
    requires { passed + 1 < 2 ^ 64 }
    ensures { result ≡ fault_of stop passed }
{
    match stop {
        Stop::Unexpected => LineFault::Bad { column: passed + 1 },
        Stop::TooMany => LineFault::Limit {
            what: LimitKind::Nodes,
            count: u64::from(MOST_NODES) + 1,
        },
        Stop::TooDeep => LineFault::Limit {
            what: LimitKind::Depth,
            count: u64::from(MOST_DEPTH) + 1,
        },
        Stop::NoMemory => LineFault::NoMemory,
    }
}

// What a line of this kind says.
fn line_of(kind: LineKind, step: Step) -> LineStep
    ensures { result ≡ line_over kind step }
{
    match kind {
        LineKind::Whole => LineStep::Whole(step),
        LineKind::Opens => LineStep::Opens(step),
        LineKind::Closes => LineStep::Closes,
        LineKind::Ends => LineStep::Ends,
    }
}

/// What the line says whose bytes these are; `ended` says that a line feed follows them. Each byte is looked at a fixed number of times
/// at most. Nothing is built of an argument behind the byte at which it passes a limit.
pub fn read_step(alloc: Global, line: &[u8], ended: bool) -> Result<LineStep, LineFault>
    ensures answer { IsAnswer (fed line.now ended) result }
    ensures text { IfOk result (λ says. (fed line.now ended ≡ text_of says) × Says says) }
{
    let mut step = Step::blank(alloc);
    match read_step_over(alloc, line, ended, &mut step) {
        Ok(kind) => Ok(line_of(kind, step)),
        Err(fault) => Err(fault),
    }
}

/// The same, with the step that the line says written over the kept one. Where an argument has the form of what is read in its place, its
/// boxes and lists serve again, and those of a term also for a term with parts of the same sort; but no list of more than 8 values. So a
/// line of the same form as the one before it takes no memory, if no list in it has more than 8 values and its path has at most the 4
/// runs that stand in the step itself. After a fault, or a line that says no step, nothing is said of the kept one.
pub fn read_step_over(
    alloc: Global,
    line: &[u8],
    ended: bool,
    kept: &mut Step,
) -> Result<LineKind, LineFault>
    ensures answer { IsAnswer (fed line.now ended) (said_over result kept.new) }
    ensures text { IfOk (said_over result kept.new) (λ says. (fed line.now ended ≡ text_of says) × Says says) }
{
    let mut cursor = Cursor::new(line, ended);
    let length = cursor.left();
    match whole_line(alloc, &mut cursor, kept) {
        Ok(kind) => Ok(kind),
        Err(stop) => Err(fault(stop, length.saturating_sub(cursor.left()) as u64)),
    }
}
