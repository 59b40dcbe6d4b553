//! Hops followed in the last factor of a product: one step by each equality.
ghost use Rattle.std.specs.Prelude.{◌≡◌, ◌∷◌, [], IfOk, Some, slice_get};
ghost use Rattle.u_rules.specs.Terms.{◌≐◌, put, terms};
ghost use Rattle.u_moves.specs.Derivations.{IsKnown};
ghost use Rattle.u_entail.specs.Sides.{AreFactors, HasSide, IsSide};
ghost use Rattle.u_entail.specs.Hops.{HopLeads, Lead};
ghost use Rattle.u_entail.specs.Following.{Crosses, Exchanges, IsExchange, IsFollowed, LandsAt, Stands};

use crate::NoMemory;
use crate::hops::Hop;
use crate::place::put_at;
use crate::spine::{spine, then_behind};
use u_moves::{Deriv, Moves};
use u_terms::{Boxed, U, Val};

/// A product without its last factor: the factors before it, by whose equalities the last one changes, and where moves are made.
#[derive(Clone, Copy)]
pub struct Front<'f, 'p, 'a> {
    pub moves: Moves<'f>,
    pub factors: &'p [&'a U],
}

/// How far hops have been followed: the steps so far, and the last factor as it is now.
#[derive(Drop)]
pub struct Followed<'f> {
    pub deriv: Deriv<'f>,
    pub last: Boxed<U>,
}

/// One hop: its step, in what stands behind the factors before its equality, and the last factor that it leads to.
#[derive(Drop)]
struct Crossing<'f> {
    part: Deriv<'f>,
    landed: Boxed<U>,
}

impl<'f, 'p, 'a> Front<'f, 'p, 'a> {
    /// Follows the hops.
    pub fn follow(&self, at: Followed<'f>, hops: &[Hop]) -> Result<Followed<'f>, NoMemory>
        requires factors { AreFactors self.now.moves.outs (terms self.now.factors.now) }
        requires stands { Stands self.now.moves.facts.now self.now.moves.outs (terms self.now.factors.now) at }
        requires lead { Lead (terms self.now.factors.now) at.last hops.now }
        ensures stands { IfOk result (Stands self.now.moves.facts.now self.now.moves.outs (terms self.now.factors.now)) }
        ensures followed { IfOk result (IsFollowed (terms self.now.factors.now) hops.now at.entry) }
    {
        let mut at = at;
        for hop in hops {
            at = self.along(at, hop)?;
        }
        Ok(at)
    }

    fn along(&self, at: Followed<'f>, hop: &Hop) -> Result<Followed<'f>, NoMemory>
        requires factors { AreFactors self.now.moves.outs (terms self.now.factors.now) }
        requires stands { Stands self.now.moves.facts.now self.now.moves.outs (terms self.now.factors.now) at }
        requires leads { (last : U) × HopLeads (terms self.now.factors.now) at.last hop.now last }
        ensures stands { IfOk result (Stands self.now.moves.facts.now self.now.moves.outs (terms self.now.factors.now)) }
        ensures followed { IfOk result (IsFollowed (terms self.now.factors.now) (hop.now ∷ []) at.entry) }
    {
        let Followed { deriv, last } = at;
        let Crossing { part, landed } = self.crossing(last.get(), hop)?;
        let front = &self.factors[..hop.factor as usize];
        let deriv = then_behind(self.moves.alloc, deriv, front, part)?;
        Ok(Followed {
            deriv,
            last: landed,
        })
    }

    // The step of the hop, and the last factor that it leads to.
    fn crossing(&self, last: &U, hop: &Hop) -> Result<Crossing<'f>, NoMemory>
        requires factors { AreFactors self.now.moves.outs (terms self.now.factors.now) }
        requires known { IsKnown 0 self.now.moves.outs last.now }
        requires leads { (to : U) × HopLeads (terms self.now.factors.now) last.now hop.now to }
        ensures crosses { IfOk result (λ c. Crosses self.now.moves.facts.now self.now.moves.outs (terms self.now.factors.now) last.now hop.now c.part) }
        ensures lands { IfOk result (λ c. LandsAt (terms self.now.factors.now) last.now hop.now c.landed) }
    {
        let landed = self.landed(last, hop)?;
        let part = self.crossed(last, hop)?;
        Ok(Crossing { part, landed })
    }

    // The step of the hop, in what stands behind the factors before its equality.
    fn crossed(&self, last: &U, hop: &Hop) -> Result<Deriv<'f>, NoMemory>
        requires factors { AreFactors self.now.moves.outs (terms self.now.factors.now) }
        requires known { IsKnown 0 self.now.moves.outs last.now }
        requires leads { (to : U) × HopLeads (terms self.now.factors.now) last.now hop.now to }
        ensures { IfOk result (Crosses self.now.moves.facts.now self.now.moves.outs (terms self.now.factors.now) last.now hop.now) }
    {
        let alloc = self.moves.alloc;
        let body = put_at(alloc, last, hop.place.as_slice(), &Val::Bound(0))?;
        let body = Boxed::new(alloc, body)?;
        self.exchanged(body.get(), hop.factor as usize, hop.turned)
    }

    // The last factor that the hop leads to.
    fn landed(&self, last: &U, hop: &Hop) -> Result<Boxed<U>, NoMemory>
        requires { (to : U) × HopLeads (terms self.now.factors.now) last.now hop.now to }
        ensures { IfOk result (LandsAt (terms self.now.factors.now) last.now hop.now) }
    {
        let alloc = self.moves.alloc;
        let side = self.other_side(hop.factor as usize, hop.turned);
        let landed = put_at(alloc, last, hop.place.as_slice(), side)?;
        Boxed::new(alloc, landed)
    }

    // The side of an equality that a hop leads to.
    fn other_side(&self, factor: usize, turned: bool) -> &Val
        requires { (a : Val) × HasSide (terms self.now.factors.now) factor turned a }
        ensures { (a b : Val) → IsSide (terms self.now.factors.now) factor turned a b → result.now ≡ b }
    {
        let equality = self.factors[factor];
        match equality {
            U::Eq(a, b) => if turned { a } else { b },
            _ => unreachable!(),
        }
    }

    // At the place of the last factor the one side of an equality becomes its other one: what stands behind the factors before it.
    fn exchanged(&self, body: &U, factor: usize, turned: bool) -> Result<Deriv<'f>, NoMemory>
        requires factors { AreFactors self.now.moves.outs (terms self.now.factors.now) }
        requires body { IsKnown 1 self.now.moves.outs body.now }
        requires side { (a : Val) × HasSide (terms self.now.factors.now) factor turned a }
        ensures { IfOk result (Exchanges self.now.moves.facts.now self.now.moves.outs (terms self.now.factors.now) factor turned body.now) }
    {
        let equality = self.factors[factor];
        match equality {
            U::Eq(a, b) => {
                let part = self.exchanged_forth(body, factor, a, b)?;
                if turned {
                    part.back(self.moves.alloc)
                } else {
                    Ok(part)
                }
            }
            _ => unreachable!(),
        }
    }

    fn exchanged_forth(
        &self,
        body: &U,
        factor: usize,
        a: &Val,
        b: &Val,
    ) -> Result<Deriv<'f>, NoMemory>
        requires factors { AreFactors self.now.moves.outs (terms self.now.factors.now) }
        requires body { IsKnown 1 self.now.moves.outs body.now }
        requires is { slice_get (terms self.now.factors.now) factor ≡ Some (a.now ≐ b.now) }
        ensures { IfOk result (IsExchange self.now.moves.facts.now self.now.moves.outs (terms self.now.factors.now) factor (put a.now body.now) (put b.now body.now)) }
    {
        let alloc = self.moves.alloc;
        let rest = spine(alloc, &self.factors[factor + 1..], body.copy(alloc)?)?;
        self.moves.eq_subst(a.copy(alloc)?, b.copy(alloc)?, rest)
    }
}
