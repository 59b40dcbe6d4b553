//! A check of a proof that is fed line by line.
ghost use Rattle.std.specs.Prelude.{◌≡◌, ◌≤◌, ◌∷◌, ◌++◌, [], ℕ, List, IfOk, IfSome};
ghost use Rattle.u_terms.specs.Syntax.{U as TheU};
ghost use Rattle.proof_text.specs.LinesOfText.{fed};
ghost use Rattle.proof_check.specs.Check.{EndsAs, HasStopped, IsNext, Tells, stop_of};
ghost use Rattle.proof_check.specs.Checking.{Finishes, IsFed, Stands, on};
ghost use Rattle.proof_check.specs.Judging.{begun};
ghost use Rattle.proof_check.specs.Limits.{IsSmall};
ghost use Rattle.proof_check.specs.declared.answers.ProofFault.TheVariants.{NoMemory as OutOfMemory};
ghost use Rattle.proof_check.specs.declared.answers.Stop.TheVariants.{Fault};

use crate::NoMemory;
use crate::answers::{ProofFault, Stop, Verdict};
use crate::level::Level;
use crate::next::next_part;
use crate::part::Part;
use crate::sized::SizedTerm;
use crate::steps::Steps;
use proof_text::Line;
use std::alloc::Global;
use std::marker::Model;
use u_deriv::Step;
use u_terms::{Facts, List, U, same};

/// A check of a proof that is fed line by line. No line is kept, and of the steps only the last one, in whose memory the next one is
/// read: a step costs what its path, the part that it compares and the part that it writes take.
#[derive(Drop)]
pub struct Checker<'f> {
    alloc: Global,
    facts: &'f Facts,
    outs: u32,
    part: Part,
    steps: Steps,
    // how many lines were taken
    lines: u64,
    stop: Option<Stop>,
}

impl<'f> Model for Checker<'f> {
    ghost use Rattle.std.specs.Coded.{codes};
    ghost use Rattle.u_terms.specs.contracts.facts.Facts as facts_type;
    ghost use Rattle.u_terms.specs.contracts.term.U as term_type;
    ghost use Rattle.proof_check.specs.Check.{Check};
    ghost use Rattle.proof_check.specs.Kept.{AreKeptOn, progress_of, state_of};

    ghost Value = { Check };

    ghost coded = { Prim.hlevel (codes, facts_type.the_row.coded, term_type.the_row.coded) };

    ghost view = { λ c. record {
      facts = c.facts.now;
      outs = c.outs;
      state = state_of c.stop c.lines (progress_of c.part c.steps);
    } };

    ghost invariant = { λ c. AreKeptOn c.outs c.stop c.part c.steps };
}

impl<'f> Checker<'f> {
    /// Before the first line of a proof from this term on, for queries of this width.
    pub fn new(
        alloc: Global,
        facts: &'f Facts,
        outs: u32,
        left: &U,
    ) -> Result<Checker<'f>, NoMemory>
        requires small { IsSmall left.now }
        requires few { outs ≤ 2048 }
        ensures { IfOk result (λ checker. checker ≡ record { facts = facts.now; outs = outs; state = on 0 (begun left.now) }) }
    {
        let level = Level {
            outs,
            term: SizedTerm::copy_of(alloc, left)?,
        };
        let steps = Steps {
            level,
            waiting: Vec::new(alloc),
            count: 0,
            step: Step::blank(alloc),
        };
        Ok(Checker {
            alloc,
            facts,
            outs,
            part: Part::Version,
            steps,
            lines: 0,
            stop: None,
        })
    }

    /// Judges the next line. After a stop each later line has the same answer.
    pub fn feed(&mut self, line: Line<'_>) -> Result<(), Stop>
        requires numbered { IsNext self.old.state line.number }
        ensures fed { IsFed self.old.facts self.old.outs self.old.state (fed line.entry.text.now line.entry.ended) self.new.state }
        ensures facts { self.new.facts ≡ self.old.facts }
        ensures outs { self.new.outs ≡ self.old.outs }
        ensures answer { Tells self.new.state result }
        ensures stands { (left : TheU) (lines : List (List ℕ)) → Stands self.old.facts self.old.outs left lines self.old.state →
            Stands self.new.facts self.new.outs left (lines ++ fed line.entry.text.now line.entry.ended ∷ []) self.new.state }
    {
        if let Some(stop) = self.stop {
            return Err(stop);
        }
        match next_part(
            self.alloc,
            self.facts,
            self.outs,
            self.part,
            &mut self.steps,
            line,
        ) {
            Ok(part) => {
                self.part = part;
                self.lines = line.number;
                Ok(())
            }
            Err(stop) => {
                self.stop = Some(stop);
                Err(stop)
            }
        }
    }

    /// What stopped the lines, if one did.
    pub(crate) fn stop(&self) -> Option<Stop>
        ensures { result ≡ stop_of self.now.state }
    {
        self.stop
    }

    /// The number of the next line, where 64 bits hold it.
    pub(crate) fn next_number(&self) -> Option<u64>
        ensures { IfSome result (IsNext self.now.state) }
    {
        self.lines.checked_add(1)
    }

    /// Stops for want of memory, and tells so.
    pub(crate) fn run_out(&mut self) -> Stop
        ensures stopped { HasStopped self.old (Fault OutOfMemory) self.new }
        ensures stop { result ≡ Fault OutOfMemory }
    {
        let stop = Stop::Fault(ProofFault::NoMemory);
        self.stop = Some(stop);
        stop
    }

    /// How the text ends whose lines were fed so far. Takes no memory.
    pub fn finish(&self, right: &U) -> Result<Verdict, ProofFault>
        ensures { Finishes right.now self.now.state result }
    {
        match self.stop {
            Some(Stop::Fails { line }) => Ok(Verdict::StepFails { line }),
            Some(Stop::Fault(fault)) => Err(fault),
            None => match self.part {
                Part::Version => Err(ProofFault::BadHeader),
                Part::Width => Err(ProofFault::BadOuts),
                Part::Steps => Err(ProofFault::NoEnd),
                Part::Ended => Ok(end_verdict(self.steps.level.term.term(), right)),
            },
        }
    }
}

// What steps show that lead to the one term, where they are to lead to the other.
fn end_verdict(end: &U, right: &U) -> Verdict
    ensures { EndsAs end.now right.now result }
{
    if same(end, right) {
        Verdict::Proved
    } else {
        Verdict::EndDiffers
    }
}
