//! What holds of the lines of proofs, each the contract of a function that does nothing.
ghost use Rattle.std.specs.List.{concat, flat_map};
ghost use Rattle.std.specs.Prelude.{◌≡◌, ◌≤◌, List, ℕ, Result, Err, [], ◌∷◌, ◌++◌, drop};
ghost use Rattle.data_model.specs.Lists.{Each};
ghost use Rattle.proof_text.specs.declared.line.LineFault.{LineFault as TheFault};
ghost use Rattle.proof_text.specs.declared.line.LineFault.TheVariants.{NoMemory as no_memory};
ghost use Rattle.proof_text.specs.declared.line.LineStep.{LineStep as TheLine};
ghost use Rattle.proof_text.specs.declared.line.LineStep.TheVariants.{Ends as the_end};
ghost use Rattle.u_deriv.specs.declared.step.Step.{Step as TheStep};
ghost use Rattle.proof_text.specs.LinesOfText.{AreLines};
ghost use Rattle.proof_text.specs.ReadingLines.{IsAnswer, IsRead, lines};
ghost use Rattle.proof_text.specs.StepLines.{lines_of, proof_lines};
ghost use Rattle.proof_text.specs.Within.{AreRead, IsWithin};
ghost use Rattle.proof_text.specs.Written.{IsWritable, ProofText, Says, text_of};
ghost use Rattle.u_deriv.specs.LineBounds.{lines_bound};
ghost use Rattle.u_deriv.specs.StepText.{lines_length, steps_text};

/// A text has one answer, but for want of memory: the line that it is, or the first column at which none goes on, or the limit
/// that an argument passes before.
pub fn one_answer()
    ensures { (text : List ℕ) (one other : Result TheLine TheFault) → (one ≡ Err no_memory → ⊥) → (other ≡ Err no_memory → ⊥) →
        IsAnswer text one → IsAnswer text other → one ≡ other }
{}

/// No text is two lines, whatever the size of their arguments.
pub fn one_line()
    ensures { (text : List ℕ) (one other : TheLine) → lines.spells text one → lines.spells text other → one ≡ other }
{}

/// A line that is read is the one text of what it says.
pub fn lines_have_one_text()
    ensures { (text : List ℕ) (says : TheLine) → IsRead text says → (text ≡ text_of says) × Says says }
{}

/// What is written of a line is read again, where its arguments are within the limits.
pub fn lines_are_read_again()
    ensures { (says : TheLine) → Says says → IsRead (text_of says) says }
{}

/// No list of steps has two texts for one width.
pub fn one_spelling()
    ensures { (bytes others : List ℕ) (outs : ℕ) (steps : List TheStep) → ProofText bytes outs steps → ProofText others outs steps → bytes ≡ others }
{}

/// No bytes are the text of two lists of steps or of two widths, whatever the size of their arguments.
pub fn one_text()
    ensures { (bytes : List ℕ) (outs width : ℕ) (steps others : List TheStep) → ProofText bytes outs steps → ProofText bytes width others →
        (outs ≡ width) × (steps ≡ others) }
{}

/// The text of steps is that of their lines, one after the other.
pub fn steps_have_the_text_of_their_lines()
    ensures { (steps : List TheStep) → steps_text steps ≡ flat_map text_of (lines_of steps) }
{}

/// The lines of steps that have a text are within their bound, since each number in them has 32 bits.
#[tactic(auto, using(crate::proofs::writing::LineBounds::laws))]
pub fn lines_are_short()
    ensures { (steps : List TheStep) → Each IsWritable steps → lines_length steps ≤ lines_bound steps }
{}

/// Each text has one list of lines, and is these lines one after the other.
pub fn lines_of_a_text()
    ensures some { (text : List ℕ) → (found : List (List ℕ)) × AreLines text found }
    ensures one { (text : List ℕ) (found others : List (List ℕ)) → AreLines text found → AreLines text others → found ≡ others }
    ensures whole { (text : List ℕ) (found : List (List ℕ)) → AreLines text found → text ≡ concat found }
{}

/// The lines of the text of a proof are its header, the width of the queries, the lines of its steps, and its end.
pub fn lines_of_a_proof()
    ensures { (bytes : List ℕ) (outs : ℕ) (steps : List TheStep) → ProofText bytes outs steps → AreLines bytes (proof_lines outs steps) }
{}

/// The text of steps within the limits is read again, inner ones too: its lines, one by one, are those of the steps.
pub fn steps_are_read_again()
    ensures { (steps : List TheStep) (texts : List (List ℕ)) → Each IsWritable steps → Each IsWithin steps → AreLines (steps_text steps) texts →
        AreRead texts (lines_of steps) }
{}

/// So is the text of a proof, behind its two lines of heading and up to its end.
pub fn proofs_are_read_again()
    ensures { (bytes : List ℕ) (outs : ℕ) (steps : List TheStep) (texts : List (List ℕ)) → ProofText bytes outs steps → Each IsWithin steps →
        AreLines bytes texts → AreRead (drop 2 texts) (lines_of steps ++ the_end ∷ []) }
{}
