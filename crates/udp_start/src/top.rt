//! The top call.
ghost use Rattle.std.specs.Prelude.{◌≡◌, ◌⊎◌, Bool, List, [], ℕ, codes};
ghost use Rattle.alike_unions.specs.Unknown.{IsUnknownOf};
ghost use Rattle.udp_io.specs.Faults.{Rose};
ghost use Rattle.udp_io.specs.Writing.{Grows};
ghost use Rattle.udp_run.specs.Answer.{AsksCheck, HasFailed, HasReadFault, IsAnswer, IsCause, IsCheck, IsFound, IsProof, IsProved, IsSaid, PassesSomeLimit, TellsBoth, both_told};
ghost use Rattle.udp_run.specs.Output.{line};
ghost use Rattle.udp_run.specs.declared.answer.Verdict.{Verdict as TheVerdict};
ghost use Rattle.udp_run.specs.declared.answer.Verdict.TheVariants.{NoSuchForm, Proved};
ghost use Rattle.udp_start.specs.Proving.{IsProving, PassesCaseLimit, told_of, unknown};
ghost use Rattle.udp_start.specs.SmallCases.{IsDoneOrFault, IsPromisedCase, IsSmallAlikeCase, IsUnionCase};
ghost use Rattle.udp_start.specs.Words.{AsksNoProof, AsksProof, IsNoForm, IsProve, default_budget};

use crate::proving::prove_case;
use crate::words::proof_words;
use std::alloc::Global;
use udp_io::{Sink, Store};
use udp_run::{Status, run};

/// Does what the words ask, and answers how it ended.
///
/// The words are those after the program's name: `check CASE PROOF`, where the store has the two texts under the names, and one line is
/// written; or `prove CASE`, perhaps with `--budget N` behind it, where the store has the case, and a proof of it is written or one line.
/// Where the store or the sink tells no content, the clauses say nothing of it.
pub fn start<S: Store, K: Sink>(
    alloc: Global,
    words: &[String],
    store: &mut S,
    out: &mut K,
) -> Status
    // Where no proof is asked for, what is answered and written is one verdict's, and that verdict is just.
    ensures answer { AsksNoProof words.now → (verdict : TheVerdict)
        × IsFound words.now (both_told (S.text store.old) (S.faults store.old) (S.faults store.new) (S.left store.new)) verdict
        × IsSaid verdict (K.written out.old) (K.written out.new) (K.faults out.old) (K.faults out.new) result }

    // Where one is, it is a proof, or that none is known or the budget ended a search, or why none is sought.
    ensures proving { (case : List ℕ) (budget : ℕ) → IsProve words.now case budget →
        IsProving (told_of (S.text store.old) (S.faults store.old) (S.faults store.new) case) budget
        (K.written out.old) (K.written out.new) (K.faults out.old) (K.faults out.new) result }

    // The headline. Where it ends with `Done` on a check, the case spells a schema and two queries that are well formed over it and of one
    // width, every row occurs in both answers equally often on every database that meets the schema, the proof is accepted for their terms, and
    // exactly `proved` and a line feed were written.
    ensures done { result ≡ Status.Done → (case proof : List ℕ) → IsCheck words.now case proof →
        IsProved (S.text store.old case) (S.text store.old proof)
        × Grows (K.written out.old) (K.written out.new) (line (codes "proved")) }

    // Where it ends with `Done` and a proof is asked for, the same holds of the case and of the bytes that were written.
    ensures derived { result ≡ Status.Done → (case : List ℕ) (budget : ℕ) → IsProve words.now case budget →
        (proof : List ℕ) × IsProved (S.text store.old case) (Some proof) × Grows (K.written out.old) (K.written out.new) proof }

    // Completeness. Where both texts are told and within their lengths, the case is spelled, well formed, of one width and within the limits, and
    // the proof is accepted for its terms, the answer is `proved`, unless the store or the sink fails or memory runs out.
    ensures complete { AsksCheck words.now (λ case proof. TellsBoth (S.text store.old case) (S.text store.old proof) IsProof) →
        IsAnswer Proved (K.written out.old) (K.written out.new) result }

    // So with every verdict: where the texts give cause for it, it is the answer, with the same exceptions.
    ensures exact { (verdict : TheVerdict) →
        AsksCheck words.now (λ case proof. IsCause verdict (S.text store.old case) (S.text store.old proof)) →
        IsAnswer verdict (K.written out.old) (K.written out.new) result }

    // And with those that the case alone gives cause for, where a proof is asked for.
    ensures exact_case { (verdict : TheVerdict) → AsksProof words.now (λ case. IsCause verdict (S.text store.old case) None) →
        IsAnswer verdict (K.written out.old) (K.written out.new) result }

    // The prover's promise. Of a case of two small filtered unions that are alike, with a budget for all lists of the entries of each block of the
    // left one, a proof is written, unless the store or the sink fails or memory runs out.
    ensures promised { (case : List ℕ) (budget : ℕ) → IsProve words.now case budget → IsPromisedCase budget (S.text store.old case) →
        IsDoneOrFault result }

    // The budget that is taken where the words say none is enough for each of them.
    ensures by_default { (case : List ℕ) → IsProve words.now case default_budget → IsSmallAlikeCase (S.text store.old case) → IsDoneOrFault result }

    // Where no proof is known of a case of two filtered unions, that the budget is spent is written only where a search for a pairing of two of
    // their blocks passes it, and `unknown` only where they are not small or not alike.
    ensures unknown { result ≡ Status.NotProved → (case : List ℕ) (budget : ℕ) → IsProve words.now case budget →
        (text : List ℕ) → S.text store.old case ≡ Some text → (unions : IsUnionCase text) →
        (spent : Bool) × IsUnknownOf unions.of_left.shapes unions.of_right.shapes budget spent
        × Grows (K.written out.old) (K.written out.new) (unknown spent) }

    // `Usage` is answered exactly where the words are no form.
    ensures usage { result ≡ Status.Usage → IsNoForm words.now }
    ensures no_form { IsNoForm words.now →
        IsSaid NoSuchForm (K.written out.old) (K.written out.new) (K.faults out.old) (K.faults out.new) result }

    // A read fault comes only where the store failed at the name of the case, or at that of the proof, and then the case is in order.
    ensures read_fault { result ≡ Status.ReadFault → AsksCheck words.now (λ case proof.
        HasReadFault (both_told (S.text store.old) (S.faults store.old) (S.faults store.new) (S.left store.new) case proof))
        ⊎ AsksProof words.now (λ case. HasFailed (told_of (S.text store.old) (S.faults store.old) (S.faults store.new) case)) }

    // A write fault comes only where the sink failed.
    ensures write_fault { result ≡ Status.WriteFault → Rose (K.faults out.old) (K.faults out.new) }

    // A limit is answered only where the case or the proof passes one.
    ensures limits { result ≡ Status.Limit →
        AsksCheck words.now (λ case proof. PassesSomeLimit (S.text store.old case) (S.text store.old proof))
        ⊎ AsksProof words.now (λ case. PassesCaseLimit (S.text store.old case)) }

    // Without memory nothing was written.
    ensures memory { result ≡ Status.NoMemory → Grows (K.written out.old) (K.written out.new) [] }
{
    match proof_words(words) {
        Some(asked) => prove_case(alloc, asked.case, asked.budget, store, out),
        None => run(alloc, words, store, out),
    }
}
