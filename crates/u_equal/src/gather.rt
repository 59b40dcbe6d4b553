//! The values that stand in a term outside every binder, and how many factors a product has.
ghost use Rattle.std.specs.Prelude.{◌≡◌, ◌++◌, IfOk, OnOk, flat_map, min, length};
ghost use Rattle.u_rules.specs.Terms.{mul_leaves};
ghost use Rattle.u_equal.specs.Gathering.{values_at};
ghost use Rattle.u_equal.specs.Standing.{standing, value_standing};

use crate::NoMemory;
use std::alloc::Global;
use u_terms::{U, Val};

/// How many factors a product has, 1 left aside, or `u64::MAX` where there are more.
#[cycle(factors)]
#[tactic(auto, using(u_rules::proofs::multisets::LeavesAt::gathering))]
pub fn factors(product: &U) -> u64
    ensures { result ≡ min (length (mul_leaves product.now)) u64.MAX }
{
    match product {
        U::One => 0,
        U::Mul(left, right) => factors(left.get()).saturating_add(factors(right.get())),
        _ => 1,
    }
}

/// The values that stand in a term, the arguments of a call before it.
pub fn standing_values(alloc: Global, term: &U) -> Result<Vec<&Val>, NoMemory>
    ensures { IfOk result (λ gathered. values_at gathered.items ≡ standing term.now) }
{
    let mut gathered = Vec::new(alloc);
    gather_of_term(term, &mut gathered)?;
    Ok(gathered)
}

#[cycle(gather_terms)]
#[tactic(auto, using(crate::proofs::products::StandingAt::gathering))]
fn gather_of_term<'a>(term: &'a U, gathered: &mut Vec<&'a Val>) -> Result<(), NoMemory>
    ensures { OnOk result (values_at gathered.new.items ≡ values_at gathered.old.items ++ standing term.now) }
{
    match term {
        U::Zero | U::One | U::Sum(_) => Ok(()),
        U::Add(a, b) | U::Mul(a, b) => {
            gather_of_term(a.get(), gathered)?;
            gather_of_term(b.get(), gathered)
        }
        U::Squash(a) | U::Not(a) => gather_of_term(a.get(), gathered),
        U::Rel(_, args) | U::Pred(_, args) => gather_list(args.as_slice(), gathered),
        U::Eq(a, b) => {
            gather_value(a, gathered)?;
            gather_value(b, gathered)
        }
    }
}

#[cycle(gather_standing)]
#[tactic(auto, using(crate::proofs::products::StandingAt::gathering))]
fn gather_value<'a>(value: &'a Val, gathered: &mut Vec<&'a Val>) -> Result<(), NoMemory>
    ensures { OnOk result (values_at gathered.new.items ≡ values_at gathered.old.items ++ value_standing value.now) }
{
    match value {
        Val::Fun(_, args) => gather_list(args.as_slice(), gathered)?,
        Val::Bound(_) | Val::Free(_) | Val::Lit(_) | Val::Agg(_, _) => {}
    }
    Ok(gathered.push(value)?)
}

#[cycle(gather_standing)]
#[tactic(auto, using(crate::proofs::products::StandingAt::gathering))]
fn gather_list<'a>(values: &'a [Val], gathered: &mut Vec<&'a Val>) -> Result<(), NoMemory>
    ensures { OnOk result (values_at gathered.new.items ≡ values_at gathered.old.items ++ flat_map value_standing values.now) }
{
    for value in values {
        gather_value(value, gathered)?;
    }
    Ok(())
}
