//! Sums nested around a term.
ghost use Rattle.std.specs.Prelude.{◌≡◌, IfOk};
ghost use Rattle.u_terms.specs.Binding as binding;

use crate::NoMemory;
use std::alloc::Global;
use u_terms::{Boxed, U};

/// The term with so many sums around it.
#[tactic(auto, using(u_terms::proofs::Binding::around))]
pub fn sums(alloc: Global, count: u32, body: U) -> Result<U, NoMemory>
    ensures { IfOk result (λ term. term ≡ binding.sums count body) }
{
    let mut term = body;
    for _i in 0..count {
        term = U::Sum(Boxed::new(alloc, term)?);
    }
    Ok(term)
}
