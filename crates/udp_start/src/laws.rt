//! What is answered where neither the store nor the sink ever fails.
ghost use Rattle.std.specs.Prelude.{◌≡◌, ◌⊎◌, ℕ, List};
ghost use Rattle.udp_io.specs.SureStore.{sure_text};
ghost use Rattle.udp_start.specs.SmallCases.{IsPromisedCase, IsSmallAlikeCase};
ghost use Rattle.udp_start.specs.Words.{IsProve, default_budget};

use crate::top::start;
use std::alloc::Global;
use udp_io::{SureSink, SureStore};
use udp_run::Status;

/// What `start` does over a store and a sink that never fail: of a case of two small filtered unions that are alike, with a budget for all lists of
/// the entries of each block of the left one, a proof is written, or memory runs out.
pub fn prove_surely(
    alloc: Global,
    words: &[String],
    store: &mut SureStore,
    out: &mut SureSink,
) -> Status
    ensures promised { (case : List ℕ) (budget : ℕ) → IsProve words.now case budget → IsPromisedCase budget (sure_text store.old case) →
        (result ≡ Status.Done) ⊎ (result ≡ Status.NoMemory) }

    // The budget that is taken where the words say none is enough for each of them.
    ensures by_default { (case : List ℕ) → IsProve words.now case default_budget → IsSmallAlikeCase (sure_text store.old case) →
        (result ≡ Status.Done) ⊎ (result ≡ Status.NoMemory) }
{
    start(alloc, words, store, out)
}
