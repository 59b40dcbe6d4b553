//! What the limits and the place of a step ask of a term, found in one walk.
ghost use Rattle.std.specs.Prelude.{◌≡◌};
ghost use Rattle.u_deriv.specs.Outlining as outlining;
ghost use Rattle.u_deriv.specs.Outlining.{list_outline, outline_of, value_outline};

use u_terms::{U, Val};

/// What one walk of a term sees.
#[derive(Clone, Copy, Debug)]
pub struct Outline {
    /// Up to the last number of the type, as is the depth.
    pub nodes: u64,
    pub depth: u64,
    /// How many binders must stand around the term at least for no place to dangle: 0 where it is closed.
    pub binders: u64,
    /// The least number that its names are below.
    pub names: u64,
}

/// That of a term or value without parts, places and names.
const LEAF: Outline = Outline {
    nodes: 1,
    depth: 1,
    binders: 0,
    names: 0,
};

/// That of a list without values.
const NOTHING: Outline = Outline {
    nodes: 0,
    depth: 0,
    binders: 0,
    names: 0,
};

impl Outline {
    /// That of both.
    #[inline(always)]
    fn and(self, other: Outline) -> Outline
        ensures { result ≡ outlining.and self other }
    {
        Outline {
            nodes: self.nodes.saturating_add(other.nodes),
            depth: self.depth.max(other.depth),
            binders: self.binders.max(other.binders),
            names: self.names.max(other.names),
        }
    }

    /// That of a term with these parts.
    #[inline(always)]
    fn below(self) -> Outline
        ensures { result ≡ outlining.below self }
    {
        Outline {
            nodes: self.nodes.saturating_add(1),
            depth: self.depth.saturating_add(1),
            binders: self.binders,
            names: self.names,
        }
    }

    /// That of a term that binds one value in this part.
    #[inline(always)]
    fn under(self) -> Outline
        ensures { result ≡ outlining.under self }
    {
        Outline {
            nodes: self.nodes.saturating_add(1),
            depth: self.depth.saturating_add(1),
            binders: self.binders.saturating_sub(1),
            names: self.names,
        }
    }
}

#[cycle(outline)]
#[tactic(auto, using(crate::proofs::steps::OutlinesAt::outlines_at))]
pub fn outline_term(u: &U) -> Outline
    ensures { result ≡ outline_of u.now }
{
    match u {
        U::Zero | U::One => LEAF,
        U::Add(a, b) | U::Mul(a, b) => outline_term(a.get()).and(outline_term(b.get())).below(),
        U::Squash(a) | U::Not(a) => outline_term(a.get()).below(),
        U::Sum(body) => outline_term(body.get()).under(),
        U::Rel(_, args) | U::Pred(_, args) => outline_all(args.as_slice()).below(),
        U::Eq(a, b) => outline_value(a).and(outline_value(b)).below(),
    }
}

#[cycle(outline)]
#[tactic(auto, using(crate::proofs::steps::OutlinesAt::outlines_at))]
fn outline_value(value: &Val) -> Outline
    ensures { result ≡ value_outline value.now }
{
    match value {
        Val::Bound(place) => Outline {
            binders: u64::from(*place) + 1,
            ..LEAF
        },
        Val::Free(name) => Outline {
            names: u64::from(*name) + 1,
            ..LEAF
        },
        Val::Lit(_) => LEAF,
        Val::Fun(_, args) => outline_all(args.as_slice()).below(),
        Val::Agg(_, body) => outline_term(body.get()).under(),
    }
}

#[cycle(outline)]
#[tactic(auto, using(crate::proofs::steps::OutlinesAt::lists_at))]
fn outline_all(values: &[Val]) -> Outline
    ensures { result ≡ list_outline values.now }
{
    let mut all = NOTHING;
    for value in values {
        all = all.and(outline_value(value));
    }
    all
}
