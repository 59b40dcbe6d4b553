//! The steps of a proof, line by line.
ghost use Rattle.std.specs.Prelude.{◌≡◌, ◌+◌, ◌<◌, ◌^◌, ◌∷◌, ℕ, List, IfOk, OnOk, option_copied};
ghost use Rattle.u_terms.specs.declared.facts.Facts.{Facts as TheFacts};
ghost use Rattle.u_deriv.specs.Applying.{IsOnlyTerm};
ghost use Rattle.proof_text.specs.LinesOfText.{fed};
ghost use Rattle.proof_text.specs.ReadingLines.{IsRead};
ghost use Rattle.proof_text.specs.Written.{Says};
ghost use Rattle.proof_text.specs.declared.line.LineStep.TheVariants as says;
ghost use Rattle.proof_check.specs.Judging.{square_of};
ghost use Rattle.proof_check.specs.Limits.{IsSmall};
ghost use Rattle.proof_check.specs.Kept.{AreSteppable, GoOn, GoesOut, IsTaken, level_of, misplaced_line, progress_of, refused_line, waiting_in, waiting_of};
ghost use Rattle.proof_check.specs.declared.part.Part.TheVariants as the_part;

use crate::answers::{ProofFault, Stop};
use crate::level::Level;
use crate::limits::{MOST_NESTING, MOST_STEPS, keep_sides, leave_room};
use crate::part::Part;
use crate::sized::SizedTerm;
use proof_text::{LimitKind, Line, LineFault, LineKind, read_step_over};
use std::alloc::{AllocError, Global};
use std::mem;
use u_deriv::Step;
use u_rules::Arg;
use u_terms::{Boxed, Facts, U, same};

/// A step of `sq_fix` whose inner steps are not at their end.
#[derive(Drop)]
pub struct Waiting {
    /// The level that it is made on, behind it.
    pub behind: Level,
    /// The term that its inner steps must end with.
    pub root: Boxed<U>,
}

/// The level on which the next step is made, the steps that wait, the innermost last, and how many steps there were, inner
/// ones too.
#[derive(Drop)]
pub struct Steps {
    pub level: Level,
    pub waiting: Vec<Waiting>,
    pub count: u64,
    /// What is left of the last line's step, in whose memory the next one is read.
    pub step: Step,
}

impl Steps {
    /// Judges the next line, and tells what the line behind it is to be.
    pub fn take(&mut self, alloc: Global, facts: &Facts, line: Line<'_>) -> Result<Part, Stop>
        requires { AreSteppable self.old }
        ensures taken { (outs : ℕ) → IsTaken facts.now outs line.entry.number (progress_of the_part.Steps self.old) (fed line.entry.text.now line.entry.ended) self.new result }
        ensures kept { IfOk result (λ part. GoOn part self.new) }
    {
        match read_step_over(alloc, line.text, line.ended, &mut self.step) {
            Ok(LineKind::Whole) => self.make(alloc, facts, line.number),
            Ok(LineKind::Opens) => self.open(alloc, facts, line.number),
            Ok(LineKind::Closes) => self.close(line.number),
            Ok(LineKind::Ends) => self.end(line.number),
            Err(fault) => Err(refused(fault, line.number)),
        }
    }

    // Makes the step that was read.
    fn make(&mut self, alloc: Global, facts: &Facts, line: u64) -> Result<Part, Stop>
        requires says { Says (says.Whole self.old.step) }
        requires steppable { AreSteppable self.old }
        ensures taken { (outs : ℕ) (text : List ℕ) → IsRead text (says.Whole self.old.step) → IsTaken facts.now outs line (progress_of the_part.Steps self.old) text self.new result }
        ensures kept { IfOk result (λ part. GoOn part self.new) }
    {
        leave_room(LimitKind::Steps, self.count, MOST_STEPS)?;
        let measured = keep_sides(facts, &self.step)?;
        self.level
            .exchange(alloc, facts, &mut self.step, measured, line)?;
        self.level.term.keep_limits()?;
        self.count += 1;
        Ok(Part::Steps)
    }

    // Makes the step of `sq_fix` that was read but for its inner steps, which come next. Its argument is copied first, since making it uses
    // the step up.
    fn open(&mut self, alloc: Global, facts: &Facts, line: u64) -> Result<Part, Stop>
        requires says { Says (says.Opens self.old.step) }
        requires steppable { AreSteppable self.old }
        ensures taken { (outs : ℕ) (text : List ℕ) → IsRead text (says.Opens self.old.step) → IsTaken facts.now outs line (progress_of the_part.Steps self.old) text self.new result }
        ensures kept { IfOk result (λ part. GoOn part self.new) }
    {
        leave_room(LimitKind::Steps, self.count, MOST_STEPS)?;
        leave_room(LimitKind::Nesting, self.waiting.len() as u64, MOST_NESTING)?;
        let measured = keep_sides(facts, &self.step)?;
        match only_term(self.step.args.as_slice()) {
            Some(x) => {
                let root = copied(alloc, x)?;
                let place = self
                    .level
                    .exchange(alloc, facts, &mut self.step, measured, line)?;
                self.go_in(alloc, root, place.binders)?;
                self.count += 1;
                Ok(Part::Steps)
            }
            None => Err(Stop::Fails { line }),
        }
    }

    // Lets the level wait for steps that lead from the square of the root to the root, under so many binders.
    fn go_in(&mut self, alloc: Global, root: Boxed<U>, binders: u32) -> Result<(), AllocError>
        requires small { IsSmall root }
        requires names { self.old.level.outs + binders < 2 ^ 32 }
        ensures level { OnOk result (level_of self.new.level ≡ square_of root (self.old.level.outs + binders)) }
        ensures waiting { OnOk result (waiting_in self.new.waiting.items ≡ record { behind = level_of self.old.level; root = root } ∷ waiting_in self.old.waiting.items) }
        ensures count { self.new.count ≡ self.old.count }
    {
        let inner = Level {
            outs: self.level.outs + binders,
            term: SizedTerm::square_of(alloc, root.get())?,
        };
        let behind = mem::replace(&mut self.level, inner);
        self.waiting.push(Waiting { behind, root })?;
        Ok(())
    }

    // Goes on behind the step that waits, where its inner steps are at their end.
    fn close(&mut self, line: u64) -> Result<Part, Stop>
        requires steppable { AreSteppable self.old }
        ensures taken { (facts : TheFacts) (outs : ℕ) (text : List ℕ) → IsRead text says.Closes → IsTaken facts outs line (progress_of the_part.Steps self.old) text self.new result }
        ensures kept { IfOk result (λ part. GoOn part self.new) }
    {
        match self.waiting.pop() {
            Some(inner) => {
                go_out(&self.level, &inner, line)?;
                let Waiting { behind, root: _ } = inner;
                self.level = behind;
                Ok(Part::Steps)
            }
            None => Err(misplaced(line)),
        }
    }

    // Ends the proof, where no step waits.
    fn end(&self, line: u64) -> Result<Part, Stop>
        ensures taken { (facts : TheFacts) (outs : ℕ) (text : List ℕ) → IsRead text says.Ends → IsTaken facts outs line (progress_of the_part.Steps self.now) text self.now result }
        ensures kept { IfOk result (λ part. GoOn part self.now) }
    {
        if self.waiting.is_empty() {
            Ok(Part::Ended)
        } else {
            Err(misplaced(line))
        }
    }
}

// The one argument, if it is a term.
fn only_term(args: &[Arg]) -> Option<&U>
    ensures { IsOnlyTerm args.now (option_copied result) }
{
    match args {
        [Arg::Term(x)] => Some(x),
        _ => None,
    }
}

fn copied(alloc: Global, x: &U) -> Result<Boxed<U>, AllocError>
    ensures { IfOk result (λ root. root ≡ x.now) }
{
    Boxed::new(alloc, x.copy(alloc)?)
}

// Whether the inner steps lead to the root of the step that waits, and the term behind it passes no limit.
fn go_out(level: &Level, inner: &Waiting, line: u64) -> Result<(), Stop>
    ensures { GoesOut line level.now.term (waiting_of inner.now) result }
{
    if !same(level.term.term(), inner.root.get()) {
        return Err(Stop::Fails { line });
    }
    inner.behind.term.keep_limits()?;
    Ok(())
}

// Why bytes are no line of this number.
fn refused(fault: LineFault, line: u64) -> Stop
    ensures { result ≡ refused_line line fault }
{
    match fault {
        LineFault::Bad { column } => Stop::Fault(ProofFault::BadLine { line, column }),
        LineFault::Limit { what, count } => Stop::Fault(ProofFault::Limit { what, count }),
        LineFault::NoMemory => Stop::Fault(ProofFault::NoMemory),
    }
}

// A line that stands where none of its kind may.
fn misplaced(line: u64) -> Stop
    ensures { result ≡ misplaced_line line }
{
    Stop::Fault(ProofFault::BadLine { line, column: 1 })
}
