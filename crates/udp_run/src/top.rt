//! A check, over any store and any sink.
ghost use Rattle.std.specs.Prelude.{◌≡◌, ◌≤◌, List, [], ℕ, length, codes, IfSome, IfOk, IfErr};
ghost use Rattle.proof_check.specs.Limits.{IsSmall};
ghost use Rattle.scope_core.specs.Faults.{most_outputs};
ghost use Rattle.udp_io.specs.Faults.{Rose};
ghost use Rattle.udp_io.specs.Writing.{Grows};
ghost use Rattle.udp_run.specs.Answer.{AsksCheck, AsksNothing, HasReadFault, IsAnswer, IsCause, IsCheck, IsFound, IsJust, IsProof, IsProved, IsSaid, PassesSomeLimit, TellsBoth, both_told};
ghost use Rattle.udp_run.specs.Output.{line};
ghost use Rattle.udp_run.specs.Proofs.{Claim as TheClaim};
ghost use Rattle.udp_run.specs.Runs.{IsCaseCause, IsCaseRead, IsProofVerdict, answer_of, fresh, verdict_of};
ghost use Rattle.udp_run.specs.declared.answer.Verdict.{Verdict as TheVerdict};

use crate::CASE_LIMIT;
use crate::answer::{Status, Verdict};
use crate::feeding::{Unfed, feed};
use case_core::{Case, terms};
use proof_check::{Checker, Pieces, ProofFault, Stop, Verdict as Shown};
use std::alloc::Global;
use u_terms::{Facts, U};
use udp_io::{ReadAllFault, Sink, Store, read_all, write_all};

/// Reads the case, or finds why there is none.
pub fn read_case<S: Store>(alloc: Global, name: &str, store: &mut S) -> Result<Case, Verdict>
    ensures read { IfOk result (IsCaseRead (S.text store.old name.now)) }
    ensures fault { IfErr result (IsCaseCause (record { text = S.text store.old name.now; before = S.faults store.old name.now; now = S.faults store.new name.now })) }
    ensures same_texts { (other : List ℕ) → S.text store.new other ≡ S.text store.old other }
    ensures later { (other : List ℕ) → S.faults store.old other ≤ S.faults store.new other }
{
    let text = match read_all(alloc, store, name, CASE_LIMIT) {
        Ok(text) => text,
        Err(ReadAllFault::ReadFault) => return Err(Verdict::CaseUnread),
        Err(ReadAllFault::TooLong) => return Err(Verdict::CaseTooLong),
        Err(ReadAllFault::NoMemory) => return Err(Verdict::OutOfMemory),
    };
    match case_core::read_case(alloc, text.as_slice()) {
        Ok(case) => Ok(case),
        Err(fault) => Err(Verdict::CaseRefused(fault)),
    }
}

// The verdict of a proof with this answer.
fn verdict_of(answer: Result<Shown, ProofFault>) -> Verdict
    ensures { result ≡ verdict_of answer }
{
    match answer {
        Ok(Shown::Proved) => Verdict::Proved,
        Ok(Shown::StepFails { line }) => Verdict::StepFails { line },
        Ok(Shown::EndDiffers) => Verdict::EndDiffers,
        Err(fault) => Verdict::ProofRefused(fault),
    }
}

// The answer after a stop.
fn stopped(stop: Stop) -> Result<Shown, ProofFault>
    ensures { result ≡ answer_of stop }
{
    match stop {
        Stop::Fails { line } => Ok(Shown::StepFails { line }),
        Stop::Fault(fault) => Err(fault),
    }
}

// Feeds the selected proof, which has this name, to a checker that has no line of it yet.
fn feed_proof<S: Store>(name: &str, store: &mut S, mut pieces: Pieces<'_>, right: &U) -> Verdict
    requires usable { S.usable store.old name.now }
    ensures found { (claim : TheClaim) → pieces.entry ≡ fresh claim → right.now ≡ claim.right → IsProofVerdict claim
        (record { text = S.left store.old; before = S.faults store.old name.now; now = S.faults store.new name.now }) (S.left store.new) result }
    ensures later { (other : List ℕ) → S.faults store.old other ≤ S.faults store.new other }
{
    match feed(store, name, &mut pieces) {
        Ok(()) => verdict_of(pieces.finish(right)),
        Err(Unfed::Stopped(stop)) => verdict_of(stopped(stop)),
        Err(Unfed::Failed) => Verdict::ProofUnread,
        Err(Unfed::TooLong) => Verdict::ProofTooLong,
    }
}

// Checks the selected proof, which has this name, against two terms.
fn check_selected<S: Store>(
    alloc: Global,
    facts: &Facts,
    outs: u32,
    left: &U,
    right: &U,
    name: &str,
    store: &mut S,
) -> Verdict
    requires usable { S.usable store.old name.now }
    requires outs { outs ≤ most_outputs }
    requires small { IsSmall left.now }
    ensures found { IsProofVerdict (record { facts = facts.now; outs = outs; left = left.now; right = right.now })
        (record { text = S.left store.old; before = S.faults store.old name.now; now = S.faults store.new name.now }) (S.left store.new) result }
    ensures later { (other : List ℕ) → S.faults store.old other ≤ S.faults store.new other }
{
    let Ok(checker) = Checker::new(alloc, facts, outs, left) else {
        return Verdict::OutOfMemory;
    };
    feed_proof(name, store, Pieces::new(alloc, checker), right)
}

// Checks the proof under the name against two terms.
fn check_proof<S: Store>(
    alloc: Global,
    facts: &Facts,
    outs: u32,
    left: &U,
    right: &U,
    name: &str,
    store: &mut S,
) -> Verdict
    requires outs { outs ≤ most_outputs }
    requires small { IsSmall left.now }
    ensures found { IsProofVerdict (record { facts = facts.now; outs = outs; left = left.now; right = right.now })
        (record { text = S.text store.old name.now; before = S.faults store.old name.now; now = S.faults store.new name.now }) (S.left store.new) result }
    ensures later { (other : List ℕ) → S.faults store.old other ≤ S.faults store.new other }
{
    if store.select(name).is_err() {
        return Verdict::ProofUnread;
    }
    check_selected(alloc, facts, outs, left, right, name, store)
}

// Checks the proof under the one name against the case under the other.
fn check_texts<S: Store>(alloc: Global, case: &str, proof: &str, store: &mut S) -> Verdict
    ensures { IsJust (both_told (S.text store.old) (S.faults store.old) (S.faults store.new) (S.left store.new) case.now proof.now) result }
{
    let case = match read_case(alloc, case, store) {
        Ok(case) => case,
        Err(verdict) => return verdict,
    };
    match terms(alloc, &case) {
        Ok((left, right)) => check_proof(
            alloc,
            case.facts(),
            case.outs(),
            &left,
            &right,
            proof,
            store,
        ),
        Err(fault) => Verdict::TermRefused(fault),
    }
}

// What the words ask for, found from the texts of the store.
fn find_verdict<S: Store>(alloc: Global, words: &[String], store: &mut S) -> Verdict
    ensures { IsFound words.now (both_told (S.text store.old) (S.faults store.old) (S.faults store.new) (S.left store.new)) result }
{
    match words {
        [verb, case, proof] if verb.as_str() == "check" => check_texts(
            alloc,
            case.as_str(),
            proof.as_str(),
            store,
        ),
        _ => Verdict::NoSuchForm,
    }
}

/// Writes the line of what was found, and answers how the run ended.
pub fn say<K: Sink>(alloc: Global, verdict: &Verdict, out: &mut K) -> Status
    ensures { IsSaid verdict.now (K.written out.old) (K.written out.new) (K.faults out.old) (K.faults out.new) result }
{
    let Ok(line) = verdict.line(alloc) else {
        return Status::NoMemory;
    };
    match write_all(out, line.as_slice()) {
        Ok(()) => verdict.status(),
        Err(_) => Status::WriteFault,
    }
}

/// Does what the words ask, and answers how it ended.
///
/// The words are those after the program's name: `check CASE PROOF`, where the store has the two texts under the names. One
/// line is written. Where the store or the sink tells no content, the clauses say nothing of it.
pub fn run<S: Store, K: Sink>(alloc: Global, words: &[String], store: &mut S, out: &mut K) -> Status
    // What is answered and written is one verdict's, and that verdict is just.
    ensures answer { (verdict : TheVerdict)
        × IsFound words.now (both_told (S.text store.old) (S.faults store.old) (S.faults store.new) (S.left store.new)) verdict
        × IsSaid verdict (K.written out.old) (K.written out.new) (K.faults out.old) (K.faults out.new) result }

    // The headline. Where it ends with `Done` on a check, the case spells a schema and two queries that are well formed over it and of one
    // width, every row occurs in both answers equally often on every database that meets the schema, the proof is accepted for their terms, and
    // exactly `proved` and a line feed were written.
    ensures done { result ≡ Status.Done → (case proof : List ℕ) → IsCheck words.now case proof →
        IsProved (S.text store.old case) (S.text store.old proof)
        × Grows (K.written out.old) (K.written out.new) (line (codes "proved")) }

    // Completeness. Where both texts are told and within their lengths, the case is spelled, well formed, of one width and within the limits, and
    // the proof is accepted for its terms, the answer is `proved`, unless the store or the sink fails or memory runs out.
    ensures complete { AsksCheck words.now (λ case proof. TellsBoth (S.text store.old case) (S.text store.old proof) IsProof) →
        IsAnswer Verdict.Proved (K.written out.old) (K.written out.new) result }

    // So with every verdict: where the texts give cause for it, it is the answer, with the same exceptions.
    ensures exact { (verdict : TheVerdict) →
        AsksCheck words.now (λ case proof. IsCause verdict (S.text store.old case) (S.text store.old proof)) →
        IsAnswer verdict (K.written out.old) (K.written out.new) result }

    // `Usage` is answered exactly where the words are no form.
    ensures usage { result ≡ Status.Usage → AsksNothing words.now }
    ensures no_form { AsksNothing words.now →
        IsSaid Verdict.NoSuchForm (K.written out.old) (K.written out.new) (K.faults out.old) (K.faults out.new) result }

    // A read fault comes only where the store failed at the name of the case, or at that of the proof, and then the case is in order.
    ensures read_fault { result ≡ Status.ReadFault → AsksCheck words.now (λ case proof.
        HasReadFault (both_told (S.text store.old) (S.faults store.old) (S.faults store.new) (S.left store.new) case proof)) }

    // A write fault comes only where the sink failed.
    ensures write_fault { result ≡ Status.WriteFault → Rose (K.faults out.old) (K.faults out.new) }

    // A limit is answered only where the case or the proof passes one.
    ensures limits { result ≡ Status.Limit → AsksCheck words.now (λ case proof. PassesSomeLimit (S.text store.old case) (S.text store.old proof)) }

    // Without memory nothing was written.
    ensures memory { result ≡ Status.NoMemory → Grows (K.written out.old) (K.written out.new) [] }
{
    let verdict = find_verdict(alloc, words, store);
    say(alloc, &verdict, out)
}
