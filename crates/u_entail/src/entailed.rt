//! Equalities that the factors of a product entail, gained as factors.
ghost use Rattle.std.specs.Prelude.{◌≡◌, ℕ, ◌+◌, ◌<◌, ◌^◌, IfOk, Some, length};
ghost use Rattle.u_terms.specs.Products.{product_of};
ghost use Rattle.u_terms.specs.Size.{depth as depth_of};
ghost use Rattle.u_rules.specs.Terms.{◌⊗◌, ◌≐◌, mul_leaves, terms};
ghost use Rattle.u_moves.specs.Derivations.{IsKnown};
ghost use Rattle.u_moves.specs.Moving.{IsKnownValue};
ghost use Rattle.u_equal.specs.Routes.{IsChain};
ghost use Rattle.u_entail.specs.Appending.{AppendsAlong, IsAppendedBy};
ghost use Rattle.u_entail.specs.Sides.{AreFactors, LeadsBy};
ghost use Rattle.u_entail.specs.Hops.{HopsLead, Lead};
ghost use Rattle.u_entail.specs.Gaining.{Begins, IsAppended, IsDerived, IsGainedBy, IsGainedIn, IsRegathered, LeadsBetween};
ghost use Rattle.u_entail.specs.Spines as spec;

use crate::NoMemory;
use crate::following::Front;
use crate::hops::{Hop, hops_at};
use std::alloc::Global;
use u_equal::{Classes, Link, Route};
use u_moves::{Deriv, Moves};
use u_rules::leaves;
use u_terms::{Facts, U, Val};

/// Where the right side of an equality stands.
const RIGHT_SIDE: [usize; 1] = [1];

/// From a product to the product times the equality of two values; `None` where its equalities do not entail that they are equal. Each link of a
/// chain between them takes a step at most: one by a factor takes one, and one between calls none but those of the links between their arguments.
/// Through calls in calls there may be exponentially many: `append_along` is for whoever wants them counted before. The chain is made and made flat
/// by recursion, a level for each call on the way.
pub fn derive<'f>(
    alloc: Global,
    facts: &'f Facts,
    outs: u32,
    product: &U,
    a: &Val,
    b: &Val,
) -> Result<Option<Deriv<'f>>, NoMemory>
    requires few { length (mul_leaves product.now) < 2 ^ 32 }
    requires product { IsKnown 0 outs product.now }
    requires a { IsKnownValue outs a.now }
    requires b { IsKnownValue outs b.now }
    ensures { IfOk result (IsDerived facts.now outs product.now a.now b.now) }
{
    let moves = Moves { alloc, facts, outs };
    let classes = Classes::of(alloc, product)?;
    match classes.chain(alloc, a, b)? {
        None => Ok(None),
        Some(links) => derive_by(moves, product, a, b, links.as_slice()),
    }
}

fn derive_by<'f>(
    moves: Moves<'f>,
    product: &U,
    a: &Val,
    b: &Val,
    links: &[Link],
) -> Result<Option<Deriv<'f>>, NoMemory>
    requires few { length (mul_leaves product.now) < 2 ^ 32 }
    requires product { IsKnown 0 moves.outs product.now }
    requires a { IsKnownValue moves.outs a.now }
    requires b { IsKnownValue moves.outs b.now }
    requires chain { IsChain product.now a.now b.now (Some links.now) }
    ensures { IfOk result (IsDerived moves.entry.facts.now moves.entry.outs product.now a.now b.now) }
{
    let hops = hops_at(moves.alloc, links, &RIGHT_SIDE)?;
    let factors = leaves(moves.alloc, product, true)?;
    let front = Front {
        moves,
        factors: factors.as_slice(),
    };
    let deriv = front.derived(product, a, b, hops.as_slice())?;
    Ok(Some(deriv))
}

/// From the product of the factors to that with the equality of two values behind them; `None` where the first factors, which are those of the
/// classes, do not entail that they are equal. The chain is made as `derive` makes it, uncounted.
pub fn append<'f>(
    moves: Moves<'f>,
    classes: &Classes<'_>,
    factors: &[&U],
    a: &Val,
    b: &Val,
) -> Result<Option<Deriv<'f>>, NoMemory>
    requires factors { AreFactors moves.outs (terms factors.now) }
    requires begins { Begins classes.now (terms factors.now) }
    requires shallow { moves.outs + depth_of (product_of (terms factors.now)) < 2 ^ 32 }
    requires a { IsKnownValue moves.outs a.now }
    ensures { IfOk result (IsAppended moves.entry.facts.now moves.entry.outs classes.now (terms factors.now) a.now b.now) }
{
    match classes.chain(moves.alloc, a, b)? {
        None => Ok(None),
        Some(links) => append_by(moves, classes, factors, a, b, links.as_slice()),
    }
}

fn append_by<'f>(
    moves: Moves<'f>,
    classes: &Classes<'_>,
    factors: &[&U],
    a: &Val,
    b: &Val,
    links: &[Link],
) -> Result<Option<Deriv<'f>>, NoMemory>
    requires factors { AreFactors moves.outs (terms factors.now) }
    requires begins { Begins classes.now (terms factors.now) }
    requires shallow { moves.outs + depth_of (product_of (terms factors.now)) < 2 ^ 32 }
    requires a { IsKnownValue moves.outs a.now }
    requires chain { IsChain classes.now a.now b.now (Some links.now) }
    ensures { IfOk result (IsAppended moves.entry.facts.now moves.entry.outs classes.now (terms factors.now) a.now b.now) }
{
    let front = Front { moves, factors };
    let deriv = front.appended(a, links)?;
    Ok(Some(deriv))
}

/// As `append`, from one end of a chain to the other that was counted: whoever does not want so many steps as it has links does not call this.
pub fn append_along<'f>(
    moves: Moves<'f>,
    route: &Route<'_, '_>,
    factors: &[&U],
    a: &Val,
    b: &Val,
) -> Result<Deriv<'f>, NoMemory>
    requires factors { AreFactors moves.outs (terms factors.now) }
    requires begins { Begins route.now.product (terms factors.now) }
    requires shallow { moves.outs + depth_of (product_of (terms factors.now)) < 2 ^ 32 }
    requires a { IsKnownValue moves.outs a.now }
    requires from { route.now.from ≡ a.now }
    requires to { route.now.to ≡ b.now }
    ensures { IfOk result (AppendsAlong moves.entry.facts.now moves.entry.outs route.now (terms factors.now) a.now b.now) }
{
    let links = route.chain(moves.alloc)?;
    let front = Front { moves, factors };
    front.appended(a, links.as_slice())
}

impl<'f, 'p, 'a> Front<'f, 'p, 'a> {
    // From the product of the factors to that with the equality behind them that the links lead to.
    fn appended(&self, a: &Val, links: &[Link]) -> Result<Deriv<'f>, NoMemory>
        requires factors { AreFactors self.now.moves.outs (terms self.now.factors.now) }
        requires shallow { self.now.moves.outs + depth_of (product_of (terms self.now.factors.now)) < 2 ^ 32 }
        requires a { IsKnownValue self.now.moves.outs a.now }
        requires leads { (n : ℕ) × (b : Val) × LeadsBy (terms self.now.factors.now) n a.now links.now b }
        ensures { IfOk result (IsAppendedBy self.now.moves.facts.now self.now.moves.outs (terms self.now.factors.now) a.now links.now) }
    {
        let hops = hops_at(self.moves.alloc, links, &RIGHT_SIDE)?;
        let first = self.widened()?;
        self.gained(first, a, hops.as_slice())
    }

    // From the product, which has these factors, to the product times the equality.
    fn derived(&self, product: &U, a: &Val, b: &Val, hops: &[Hop]) -> Result<Deriv<'f>, NoMemory>
        requires factors { AreFactors self.now.moves.outs (terms self.now.factors.now) }
        requires leaves { terms self.now.factors.now ≡ mul_leaves product.now }
        requires product { IsKnown 0 self.now.moves.outs product.now }
        requires a { IsKnownValue self.now.moves.outs a.now }
        requires b { IsKnownValue self.now.moves.outs b.now }
        requires lead { HopsLead (terms self.now.factors.now) (a.now ≐ a.now) hops.now (a.now ≐ b.now) }
        ensures { IfOk result (IsGainedBy self.now.moves.facts.now self.now.moves.outs (terms self.now.factors.now) product.now (product.now ⊗ (a.now ≐ b.now)) a.now b.now hops.now 3) }
    {
        let gained = self.gained_in(product, a, hops)?;
        self.regathered(gained, product, a, b)
    }

    fn gained_in(&self, product: &U, a: &Val, hops: &[Hop]) -> Result<Deriv<'f>, NoMemory>
        requires factors { AreFactors self.now.moves.outs (terms self.now.factors.now) }
        requires leaves { terms self.now.factors.now ≡ mul_leaves product.now }
        requires product { IsKnown 0 self.now.moves.outs product.now }
        requires a { IsKnownValue self.now.moves.outs a.now }
        requires lead { Lead (terms self.now.factors.now) (a.now ≐ a.now) hops.now }
        ensures { IfOk result (IsGainedIn self.now.moves.facts.now self.now.moves.outs product.now (terms self.now.factors.now) a.now hops.now) }
    {
        let spread = self.spread(product)?;
        self.gained(spread, a, hops)
    }

    // The factors before the equality become the product again.
    fn regathered(
        &self,
        gained: Deriv<'f>,
        product: &U,
        a: &Val,
        b: &Val,
    ) -> Result<Deriv<'f>, NoMemory>
        requires factors { AreFactors self.now.moves.outs (terms self.now.factors.now) }
        requires leaves { terms self.now.factors.now ≡ mul_leaves product.now }
        requires product { IsKnown 0 self.now.moves.outs product.now }
        requires a { IsKnownValue self.now.moves.outs a.now }
        requires b { IsKnownValue self.now.moves.outs b.now }
        requires gained { LeadsBetween self.now.moves.facts.now self.now.moves.outs product.now (spec.spine (terms self.now.factors.now) (a.now ≐ b.now)) gained }
        ensures { IfOk result (IsRegathered self.now.moves.facts.now self.now.moves.outs (terms self.now.factors.now) product.now a.now b.now gained.entry) }
    {
        let gathered = self.gathered(product, a, b)?;
        gained.then(self.moves.alloc, gathered)
    }
}
