//! The kinds of factors.
ghost use Rattle.std.specs.Prelude.{◌≡◌, ◌↔◌, IsTrue};
ghost use Rattle.normal_form.specs.Kinds as spec;

use u_terms::U;

/// What a factor is. In a block factors stand in this order.
#[derive(Debug, Clone, Copy, PartialEq, Eq)]
pub enum Kind {
    /// An equality or a predicate, bare or directly under a negation.
    Mark,
    /// A relation.
    Atom,
    Squash,
    /// The negation of any other term.
    Negation,
}

/// The kind of a factor. A sum, a product, a sum over values, `0` and `1` are of none.
#[tactic(auto, using(crate::proofs::KindsAt::kinds_at))]
pub fn kind_of(u: &U) -> Option<Kind>
    ensures { result ≡ spec.kind_of u.now }
{
    match u {
        U::Eq(_, _) | U::Pred(_, _) => Some(Kind::Mark),
        U::Rel(_, _) => Some(Kind::Atom),
        U::Squash(_) => Some(Kind::Squash),
        U::Not(a) if is_truth(a.get()) => Some(Kind::Mark),
        U::Not(_) => Some(Kind::Negation),
        U::Zero | U::One | U::Add(_, _) | U::Mul(_, _) | U::Sum(_) => None,
    }
}

// Whether a term is a bare equality or a bare predicate.
#[tactic(auto, using(crate::proofs::KindsAt::kinds_at))]
fn is_truth(u: &U) -> bool
    ensures { result ≡ spec.is_truth u.now }
{
    match u {
        U::Eq(_, _) | U::Pred(_, _) => true,
        U::Zero | U::One | U::Add(_, _) | U::Mul(_, _) => false,
        U::Squash(_) | U::Not(_) | U::Sum(_) | U::Rel(_, _) => false,
    }
}
