//! Laws of the definitions, the contract of a function that does nothing; and what a run answers over a store and a sink that never fail.
ghost use Rattle.std.specs.Prelude.{◌≡◌, ◌≢◌, ◌⊎◌, List, ℕ};
ghost use Rattle.sql_model.specs.declared.schema.Schema.{Schema as TheSchema};
ghost use Rattle.case_core.specs.declared.fault.CaseFault.{CaseFault as TheFault};
ghost use Rattle.case_core.specs.declared.fault.CaseFault.TheVariants.{NoMemory};
ghost use Rattle.case_core.specs.declared.text.CaseText.{CaseText as Written};
ghost use Rattle.case_core.specs.Answer.{IsRefused};
ghost use Rattle.udp_io.specs.SureStore.{sure_text};
ghost use Rattle.udp_run.specs.declared.answer.Verdict.{Verdict as TheVerdict};
ghost use Rattle.udp_run.specs.Answer.{AsksCheck, IsCause, IsProof, TellsBoth, status_of};
ghost use Rattle.udp_run.specs.Cases.{AreComparable, Spells};

use crate::answer::Status;
use crate::top::run;
use std::alloc::Global;
use udp_io::{SureSink, SureStore};

/// Want of memory left aside, a text that spells a well-formed case within the limits is refused for nothing, and any text for one fault
/// alone.
pub fn one_refusal()
    ensures none { (text : List ℕ) (schema : TheSchema) (written : Written) → Spells text schema written → AreComparable schema written →
        (fault : TheFault) → IsRefused text fault → fault ≡ NoMemory }
    ensures one { (text : List ℕ) (fault other : TheFault) → fault ≢ NoMemory → other ≢ NoMemory →
        IsRefused text fault → IsRefused text other → fault ≡ other }
{}

/// Over a store and a sink that never fail, a run ends with the answer that its texts give cause for, or for want of memory.
pub fn run_surely(
    alloc: Global,
    words: &[String],
    store: &mut SureStore,
    out: &mut SureSink,
) -> Status
    // An accepted proof of a case is found to be one.
    ensures complete { AsksCheck words.now (λ case proof. TellsBoth (sure_text store.old case) (sure_text store.old proof) IsProof) →
        (result ≡ Status.Done) ⊎ (result ≡ Status.NoMemory) }
    // So with every verdict for which the texts give cause.
    ensures exact { (verdict : TheVerdict) →
        AsksCheck words.now (λ case proof. IsCause verdict (sure_text store.old case) (sure_text store.old proof)) →
        (result ≡ status_of verdict) ⊎ (result ≡ Status.NoMemory) }
    ensures no_read_fault { result ≢ Status.ReadFault }
    ensures no_write_fault { result ≢ Status.WriteFault }
{
    run(alloc, words, store, out)
}
