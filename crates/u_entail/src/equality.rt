//! An equality in the place of a last factor 1: a value is equal to itself, and then its right side goes along hops.
ghost use Rattle.std.specs.Prelude.{◌≡◌, IfOk};
ghost use Rattle.u_rules.specs.Terms.{◌≐◌, I, terms};
ghost use Rattle.u_moves.specs.Derivations.{IsKnown};
ghost use Rattle.u_moves.specs.Moving.{IsKnownValue};
ghost use Rattle.u_entail.specs.Sides.{AreFactors};
ghost use Rattle.u_entail.specs.Hops.{Lead};
ghost use Rattle.u_entail.specs.Gaining.{EndsIn, IsBegun, IsGained, IsLed};
ghost use Rattle.u_entail.specs.Spines as spec;

use crate::NoMemory;
use crate::following::{Followed, Front};
use crate::gaining::equality;
use crate::hops::Hop;
use crate::spine::then_behind;
use std::alloc::Global;
use u_moves::Deriv;
use u_terms::{Boxed, U, Val};

impl<'f, 'p, 'a> Front<'f, 'p, 'a> {
    /// The equality of the value with the one that the hops lead to.
    pub fn gained(&self, first: Deriv<'f>, a: &Val, hops: &[Hop]) -> Result<Deriv<'f>, NoMemory>
        requires factors { AreFactors self.now.moves.outs (terms self.now.factors.now) }
        requires first { EndsIn self.now.moves.facts.now self.now.moves.outs (spec.spine (terms self.now.factors.now) I) first }
        requires a { IsKnownValue self.now.moves.outs a.now }
        requires lead { Lead (terms self.now.factors.now) (a.now ≐ a.now) hops.now }
        ensures { IfOk result (IsGained (terms self.now.factors.now) a.now hops.now first.entry) }
    {
        let begun = self.begun(first, a)?;
        let last = with_itself(self.moves.alloc, a)?;
        self.led(begun, last, hops)
    }

    fn begun(&self, first: Deriv<'f>, a: &Val) -> Result<Deriv<'f>, NoMemory>
        requires factors { AreFactors self.now.moves.outs (terms self.now.factors.now) }
        requires first { EndsIn self.now.moves.facts.now self.now.moves.outs (spec.spine (terms self.now.factors.now) I) first }
        requires a { IsKnownValue self.now.moves.outs a.now }
        ensures { IfOk result (IsBegun self.now.moves.facts.now self.now.moves.outs (terms self.now.factors.now) a.now first.entry) }
    {
        let itself = self.itself(a)?;
        then_behind(self.moves.alloc, first, self.factors, itself)
    }

    /// The last factor goes along the hops.
    pub fn led(&self, begun: Deriv<'f>, last: Boxed<U>, hops: &[Hop]) -> Result<Deriv<'f>, NoMemory>
        requires factors { AreFactors self.now.moves.outs (terms self.now.factors.now) }
        requires begun { EndsIn self.now.moves.facts.now self.now.moves.outs (spec.spine (terms self.now.factors.now) last) begun }
        requires known { IsKnown 0 self.now.moves.outs last }
        requires lead { Lead (terms self.now.factors.now) last hops.now }
        ensures { IfOk result (IsLed self.now.moves.facts.now self.now.moves.outs (terms self.now.factors.now) last hops.now begun.entry) }
    {
        let at = Followed { deriv: begun, last };
        let end = self.follow(at, hops)?;
        Ok(end.deriv)
    }
}

// The equality of a value with itself.
fn with_itself(alloc: Global, a: &Val) -> Result<Boxed<U>, NoMemory>
    ensures { IfOk result (λ u. u ≡ (a.now ≐ a.now)) }
{
    let equality = equality(alloc, a, a)?;
    Boxed::new(alloc, equality)
}
