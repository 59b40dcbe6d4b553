//! Products that are regrouped, so that their last factor can become an equality.
ghost use Rattle.std.specs.Prelude.{◌≡◌, ◌+◌, ◌<◌, ◌^◌, ◌++◌, ◌∷◌, [], IfOk};
ghost use Rattle.u_terms.specs.Products.{product_of};
ghost use Rattle.u_terms.specs.Size.{depth as depth_of};
ghost use Rattle.u_rules.specs.Terms.{◌⊗◌, ◌≐◌, I, mul_leaves, terms};
ghost use Rattle.u_moves.specs.Derivations.{IsKnown, IsStill};
ghost use Rattle.u_moves.specs.Moving.{IsKnownValue};
ghost use Rattle.u_entail.specs.Sides.{AreFactors};
ghost use Rattle.u_entail.specs.Gaining.{IsRegrouped, IsWidened};
ghost use Rattle.u_entail.specs.Spines as spec;

use crate::NoMemory;
use crate::following::Front;
use crate::spine::{spine, then_behind};
use std::alloc::Global;
use u_moves::Deriv;
use u_terms::{Boxed, U, Val};

impl<'f, 'p, 'a> Front<'f, 'p, 'a> {
    /// 1 becomes the equality of the value with itself.
    #[tactic(auto, using(crate::proofs::products::Plain::one_move))]
    pub fn itself(&self, a: &Val) -> Result<Deriv<'f>, NoMemory>
        requires { IsKnownValue self.now.moves.outs a.now }
        ensures { IfOk result (IsRegrouped self.now.moves.facts.now self.now.moves.outs I (a.now ≐ a.now)) }
    {
        let alloc = self.moves.alloc;
        let refl = self.moves.eq_refl(a.copy(alloc)?)?;
        refl.back(alloc)
    }

    /// The product leans to the right, and has a last factor 1.
    #[tactic(auto, using(crate::proofs::products::Plain::one_move))]
    pub fn spread(&self, product: &U) -> Result<Deriv<'f>, NoMemory>
        requires factors { AreFactors self.now.moves.outs (terms self.now.factors.now) }
        requires leaves { terms self.now.factors.now ≡ mul_leaves product.now }
        requires product { IsKnown 0 self.now.moves.outs product.now }
        ensures { IfOk result (IsRegrouped self.now.moves.facts.now self.now.moves.outs product.now (spec.spine (terms self.now.factors.now) I)) }
    {
        let alloc = self.moves.alloc;
        let spread = spine(alloc, self.factors, U::One)?;
        self.moves.mul_ac(product.copy(alloc)?, spread)
    }

    /// The factors before the last one, an equality, are the product again.
    #[tactic(auto, using(crate::proofs::products::Plain::one_move))]
    pub fn gathered(&self, product: &U, a: &Val, b: &Val) -> Result<Deriv<'f>, NoMemory>
        requires factors { AreFactors self.now.moves.outs (terms self.now.factors.now) }
        requires leaves { terms self.now.factors.now ≡ mul_leaves product.now }
        requires product { IsKnown 0 self.now.moves.outs product.now }
        requires a { IsKnownValue self.now.moves.outs a.now }
        requires b { IsKnownValue self.now.moves.outs b.now }
        ensures { IfOk result (IsRegrouped self.now.moves.facts.now self.now.moves.outs (spec.spine (terms self.now.factors.now) (a.now ≐ b.now)) (product.now ⊗ (a.now ≐ b.now))) }
    {
        let alloc = self.moves.alloc;
        let spread = spine(alloc, self.factors, equality(alloc, a, b)?)?;
        let product = Boxed::new(alloc, product.copy(alloc)?)?;
        let equality = Boxed::new(alloc, equality(alloc, a, b)?)?;
        self.moves.mul_ac(spread, U::Mul(product, equality))
    }
}

impl<'f, 'p, 'a> Front<'f, 'p, 'a> {
    /// From the product of the factors to these with a last factor 1.
    pub fn widened(&self) -> Result<Deriv<'f>, NoMemory>
        requires factors { AreFactors self.now.moves.outs (terms self.now.factors.now) }
        requires shallow { self.now.moves.outs + depth_of (product_of (terms self.now.factors.now)) < 2 ^ 32 }
        ensures { IfOk result (IsWidened self.now.moves.facts.now self.now.moves.outs (terms self.now.factors.now)) }
    {
        let moves = self.moves;
        let count = self.factors.len();
        if count == 0 {
            return Deriv::refl(moves.alloc, moves.facts, moves.outs, &U::One);
        }
        self.widened_behind(&self.factors[..count - 1], self.factors[count - 1])
    }

    fn widened_behind(&self, before: &[&U], last: &U) -> Result<Deriv<'f>, NoMemory>
        requires factors { AreFactors self.now.moves.outs (terms self.now.factors.now) }
        requires parts { terms self.now.factors.now ≡ terms before.now ++ last.now ∷ [] }
        requires shallow { self.now.moves.outs + depth_of (product_of (terms self.now.factors.now)) < 2 ^ 32 }
        ensures { IfOk result (IsWidened self.now.moves.facts.now self.now.moves.outs (terms self.now.factors.now)) }
    {
        let still = self.still(before, last)?;
        let wide = self.times_one(last)?;
        then_behind(self.moves.alloc, still, before, wide)
    }

    // The product of these factors, without a step.
    fn still(&self, before: &[&U], last: &U) -> Result<Deriv<'f>, NoMemory>
        requires known { IsKnown 0 self.now.moves.outs (spec.spine (terms before.now) last.now) }
        requires shallow { self.now.moves.outs + depth_of (spec.spine (terms before.now) last.now) < 2 ^ 32 }
        ensures { IfOk result (IsStill self.now.moves.facts.now self.now.moves.outs (spec.spine (terms before.now) last.now)) }
    {
        let moves = self.moves;
        let whole = spine(moves.alloc, before, last.copy(moves.alloc)?)?;
        Deriv::refl(moves.alloc, moves.facts, moves.outs, &whole)
    }

    #[tactic(auto, using(crate::proofs::products::Plain::one_move))]
    fn times_one(&self, factor: &U) -> Result<Deriv<'f>, NoMemory>
        requires { IsKnown 0 self.now.moves.outs factor.now }
        ensures { IfOk result (IsRegrouped self.now.moves.facts.now self.now.moves.outs factor.now (factor.now ⊗ I)) }
    {
        let alloc = self.moves.alloc;
        let one = Boxed::new(alloc, U::One)?;
        let wide = U::Mul(Boxed::new(alloc, factor.copy(alloc)?)?, one);
        self.moves.mul_ac(factor.copy(alloc)?, wide)
    }
}

/// The equality of both.
pub fn equality(alloc: Global, a: &Val, b: &Val) -> Result<U, NoMemory>
    ensures { IfOk result (λ u. u ≡ (a.now ≐ b.now)) }
{
    Ok(U::Eq(a.copy(alloc)?, b.copy(alloc)?))
}
