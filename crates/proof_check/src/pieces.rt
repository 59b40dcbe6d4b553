//! A proof that comes in pieces.
ghost use Rattle.std.specs.Prelude.{◌≡◌, [], Err};
ghost use Rattle.proof_text.specs.LinesOfText.{fed};
ghost use Rattle.proof_check.specs.Check.{Tells};
ghost use Rattle.proof_check.specs.Checking.{stopped};
ghost use Rattle.proof_check.specs.Pieces.{EndsLine, IsFedBy, IsFinished, IsLastFed, IsUnbroken, KeepsLine, Takes};
ghost use Rattle.proof_check.specs.declared.answers.Stop.{Stop as TheStop};

use crate::answers::{ProofFault, Stop, Verdict};
use crate::checker::Checker;
use proof_text::{Line, Lines};
use std::alloc::Global;
use std::marker::Model;
use u_terms::U;

/// Feeds a checker the lines of a text that comes in pieces: each line once its line feed has come, and the last one where the
/// text ends. It keeps the bytes behind the last line feed, however many they are, and looks at each byte a fixed number of times.
#[derive(Drop)]
pub struct Pieces<'f> {
    checker: Checker<'f>,
    partial: Vec<u8>,
}

impl<'f> Model for Pieces<'f> {
    ghost use Rattle.std.specs.Coded.{codes};
    ghost use Rattle.u_terms.specs.contracts.facts.Facts as facts_type;
    ghost use Rattle.u_terms.specs.contracts.term.U as term_type;
    ghost use Rattle.proof_check.specs.Pieces.{IsUnbroken, Partial};

    ghost Value = { Partial };

    ghost coded = { Prim.hlevel (codes, facts_type.the_row.coded, term_type.the_row.coded) };

    ghost view = { λ p. record { check = p.checker; bytes = p.partial.items } };

    ghost invariant = { λ p. IsUnbroken p.partial.items };
}

// Feeds the next line.
fn feed(checker: &mut Checker<'_>, text: &[u8], ended: bool) -> Result<(), Stop>
    ensures { IsFedBy checker.old (fed text.now ended) checker.new result }
{
    match checker.next_number() {
        Some(number) => checker.feed(Line {
            text,
            number,
            ended,
        }),
        None => Err(checker.run_out()),
    }
}

impl<'f> Pieces<'f> {
    /// No piece has come yet.
    pub fn new(alloc: Global, checker: Checker<'f>) -> Pieces<'f>
        ensures { result ≡ record { check = checker.entry; bytes = [] } }
    {
        Pieces {
            checker,
            partial: Vec::new(alloc),
        }
    }

    // Feeds the line that ends with these bytes.
    fn end_line(&mut self, bytes: &[u8]) -> Result<(), Stop>
        requires unbroken { IsUnbroken bytes.now }
        ensures fed { EndsLine self.old bytes.now self.new result }
        ensures unbroken { IsUnbroken self.old.bytes }
    {
        if self.partial.is_empty() {
            return feed(&mut self.checker, bytes, true);
        }
        self.keep(bytes)?;
        feed(&mut self.checker, self.partial.as_slice(), true)?;
        self.partial.clear();
        Ok(())
    }

    // Keeps the bytes of a line that goes on.
    fn keep(&mut self, bytes: &[u8]) -> Result<(), Stop>
        requires unbroken { IsUnbroken bytes.now }
        ensures { KeepsLine self.old bytes.now self.new result }
    {
        match self.partial.extend_from_slice(bytes) {
            Ok(()) => Ok(()),
            Err(_) => Err(self.checker.run_out()),
        }
    }

    /// Takes the next bytes of the text, and answers the stop of the line that is the last to be judged. After a stop each later
    /// piece has the same answer, and is not looked at.
    pub fn take(&mut self, piece: &[u8]) -> Result<(), Stop>
        ensures taken { Takes self.old piece.now self.new result }
        ensures answer { Tells self.new.check.state result }
        ensures stays { (stop : TheStop) → self.old.check.state ≡ stopped stop → result ≡ Err stop }
    {
        if let Some(stop) = self.checker.stop() {
            return Err(stop);
        }
        let mut lines = Lines::new(piece);
        while let Some(line) = lines.next() {
            if line.ended {
                self.end_line(line.text)?;
            } else {
                self.keep(line.text)?;
            }
        }
        Ok(())
    }

    // Feeds the last line, where it has no line feed.
    fn end(&mut self)
        ensures { IsLastFed self.old self.new.check.state }
    {
        if !self.partial.is_empty() {
            // What stops it is told by the checker where it finishes.
            let _ = feed(&mut self.checker, self.partial.as_slice(), false);
        }
    }

    /// What the text shows of two terms that ends here: the first one was given to the checker.
    pub fn finish(mut self, right: &U) -> Result<Verdict, ProofFault>
        ensures { IsFinished self.entry right.now result }
    {
        self.end();
        self.checker.finish(right)
    }
}
