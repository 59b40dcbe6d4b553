//! From a case to the terms of its two queries.
ghost use Rattle.std.specs.Prelude.{IfErr, IfOk};
ghost use Rattle.sql_to_u.specs.Limits.{IsCause};
ghost use Rattle.case_core.specs.Terms.{AreTerms, terms_fault};

use crate::case::Case;
use sql_to_u::{TermFault, translate};
use std::alloc::Global;
use u_terms::U;

/// The terms of the first query and of the second, with the names 0, 1, .. for their columns. Where a term is too big, the first that is so is
/// told, and nothing of it is built.
#[tactic(auto, using(crate::proofs::CaseTerms::causes))]
pub fn terms(alloc: Global, case: &Case) -> Result<(U, U), TermFault>
    ensures value { IfOk result (λ terms. AreTerms case.now terms) }
    ensures err { IfErr result (λ fault. IsCause fault (terms_fault case.now)) }
{
    match translate(alloc, case.views(), case.left()) {
        Ok(left) => match translate(alloc, case.views(), case.right()) {
            Ok(right) => Ok((left, right)),
            Err(fault) => Err(fault),
        },
        Err(fault) => Err(fault),
    }
}
