//! A mark of other points behind the factors, one of which is the same mark of points that are entailed to be equal.
ghost use Rattle.std.specs.Prelude.{◌≡◌, ◌+◌, ◌<◌, ◌^◌, ◌∷◌, [], IfOk, Some, slice_get};
ghost use Rattle.u_terms.specs.Products.{product_of};
ghost use Rattle.u_terms.specs.Size.{depth as depth_of};
ghost use Rattle.u_deriv.specs.Turns.{turns};
ghost use Rattle.u_deriv.specs.declared.run.Turn.TheVariants as turn;
ghost use Rattle.u_rules.specs.Terms.{◌≐◌, neg, terms};
ghost use Rattle.u_entail.specs.Copies.{CopiesAlong, IsCopiedBy, IsCopy, IsCopyAt, IsDifferenceCopied, IsReady, LeadExchanged};
ghost use Rattle.u_entail.specs.Carrying.{AreMarkPairs};
ghost use Rattle.u_entail.specs.Gaining.{Begins, IsRegrouped};
ghost use Rattle.u_entail.specs.Hops.{Lead};
ghost use Rattle.u_entail.specs.Marks.{HasMark, IsMark};
ghost use Rattle.u_entail.specs.Sides.{AreFactors};

use crate::NoMemory;
use crate::carrying::{MarkPairs, MarkRoute};
use crate::following::Front;
use crate::gaining::equality;
use crate::hops::{Hop, hops_along, hops_between};
use crate::spine::then_behind;
use std::alloc::Global;
use u_deriv::{Path, Run};
use u_equal::Classes;
use u_moves::{Deriv, Moves};
use u_terms::{Boxed, U, Val};

/// From the product of the factors to that with the wanted mark behind them; `None` where it does not follow from the factor at the place, which
/// counts from 0 and has to be a mark. It follows where both are the same predicate or equality under the same negations, and the first factors,
/// which are those of the classes, entail that each point is equal to the one in its place; the sides of a negated equality may be exchanged. No
/// chain is made before each point is known to be entailed, and none is counted: through calls in calls they may have exponentially many links.
/// They are made by recursion, a level for each call on the way.
pub fn copy_mark<'f>(
    moves: Moves<'f>,
    classes: &Classes<'_>,
    factors: &[&U],
    place: usize,
    wanted: &U,
) -> Result<Option<Deriv<'f>>, NoMemory>
    requires factors { AreFactors moves.outs (terms factors.now) }
    requires begins { Begins classes.now (terms factors.now) }
    requires shallow { moves.outs + depth_of (product_of (terms factors.now)) < 2 ^ 32 }
    requires mark { HasMark (terms factors.now) place }
    ensures { IfOk result (IsCopyAt moves.entry.facts.now moves.entry.outs classes.now (terms factors.now) place wanted.now) }
{
    match MarkPairs::of(moves.alloc, classes, factors[place], wanted)? {
        None => Ok(None),
        Some(pairs) => {
            let deriv = copy_mark_between(moves, classes, &pairs, wanted, factors, place)?;
            Ok(Some(deriv))
        }
    }
}

// From the mark of the pairs to the wanted one.
fn copy_mark_between<'f>(
    moves: Moves<'f>,
    classes: &Classes<'_>,
    pairs: &MarkPairs<'_>,
    wanted: &U,
    factors: &[&U],
    place: usize,
) -> Result<Deriv<'f>, NoMemory>
    requires factors { AreFactors moves.outs (terms factors.now) }
    requires begins { Begins classes.now (terms factors.now) }
    requires shallow { moves.outs + depth_of (product_of (terms factors.now)) < 2 ^ 32 }
    requires at { slice_get (terms factors.now) place ≡ Some pairs.now.mark.now }
    requires is { IsMark pairs.now.mark.now }
    requires pairs { AreMarkPairs classes.now pairs.now.mark.now wanted.now pairs.now }
    ensures { IfOk result (IsCopy moves.entry.facts.now moves.entry.outs classes.now (terms factors.now) pairs.now.mark.now wanted.now) }
{
    let hops = hops_between(moves.alloc, classes, pairs.points.as_slice())?;
    let front = Front { moves, factors };
    if pairs.exchanged {
        front.copied_difference(place, pairs.mark, hops.as_slice())
    } else {
        front.copied(place, pairs.mark, hops.as_slice())
    }
}

/// As `copy_mark`, from the mark of a route to the wanted one along chains that were counted: whoever does not want so many steps as they have
/// links does not call this. The mark is the factor at the place. The counting, which `copy_mark` does without, is what the route cost.
pub fn copy_mark_along<'f>(
    moves: Moves<'f>,
    route: &MarkRoute<'_, '_>,
    factors: &[&U],
    place: usize,
) -> Result<Deriv<'f>, NoMemory>
    requires factors { AreFactors moves.outs (terms factors.now) }
    requires begins { Begins route.now.product (terms factors.now) }
    requires shallow { moves.outs + depth_of (product_of (terms factors.now)) < 2 ^ 32 }
    requires at { slice_get (terms factors.now) place ≡ Some route.now.mark }
    requires is { IsMark route.now.mark }
    ensures { IfOk result (CopiesAlong moves.entry.facts.now moves.entry.outs route.now (terms factors.now)) }
{
    let hops = hops_along(moves.alloc, route.points.as_slice())?;
    let front = Front { moves, factors };
    if route.exchanged {
        front.copied_difference(place, route.mark, hops.as_slice())
    } else {
        front.copied(place, route.mark, hops.as_slice())
    }
}

impl<'f, 'p, 'a> Front<'f, 'p, 'a> {
    fn copied_difference(&self, place: usize, mark: &U, hops: &[Hop]) -> Result<Deriv<'f>, NoMemory>
        requires factors { AreFactors self.now.moves.outs (terms self.now.factors.now) }
        requires shallow { self.now.moves.outs + depth_of (product_of (terms self.now.factors.now)) < 2 ^ 32 }
        requires at { slice_get (terms self.now.factors.now) place ≡ Some mark.now }
        requires lead { LeadExchanged (terms self.now.factors.now) mark.now hops.now }
        ensures { IfOk result (IsDifferenceCopied self.now.moves.facts.now self.now.moves.outs (terms self.now.factors.now) mark.now hops.now) }
    {
        match mark {
            U::Not(inner) => match inner.get() {
                U::Eq(a, b) => self.copied_exchanged(place, a, b, hops),
                _ => unreachable!(),
            },
            _ => unreachable!(),
        }
    }

    fn copied(&self, place: usize, mark: &U, hops: &[Hop]) -> Result<Deriv<'f>, NoMemory>
        requires factors { AreFactors self.now.moves.outs (terms self.now.factors.now) }
        requires at { slice_get (terms self.now.factors.now) place ≡ Some mark.now }
        requires is { IsMark mark.now }
        requires lead { Lead (terms self.now.factors.now) mark.now hops.now }
        ensures { IfOk result (IsCopiedBy self.now.moves.facts.now self.now.moves.outs (terms self.now.factors.now) mark.now hops.now 4) }
    {
        let alloc = self.moves.alloc;
        let last = Boxed::new(alloc, mark.copy(alloc)?)?;
        let again = self.again(place)?;
        self.led(again, last, hops)
    }

    fn copied_exchanged(
        &self,
        place: usize,
        a: &Val,
        b: &Val,
        hops: &[Hop],
    ) -> Result<Deriv<'f>, NoMemory>
        requires factors { AreFactors self.now.moves.outs (terms self.now.factors.now) }
        requires shallow { self.now.moves.outs + depth_of (product_of (terms self.now.factors.now)) < 2 ^ 32 }
        requires at { slice_get (terms self.now.factors.now) place ≡ Some (neg (a.now ≐ b.now)) }
        requires lead { Lead (terms self.now.factors.now) (neg (b.now ≐ a.now)) hops.now }
        ensures { IfOk result (IsCopiedBy self.now.moves.facts.now self.now.moves.outs (terms self.now.factors.now) (neg (b.now ≐ a.now)) hops.now 5) }
    {
        let last = difference(self.moves.alloc, b, a)?;
        let ready = self.exchanged_again(place, a, b)?;
        self.led(ready, last, hops)
    }

    fn exchanged_again(&self, place: usize, a: &Val, b: &Val) -> Result<Deriv<'f>, NoMemory>
        requires factors { AreFactors self.now.moves.outs (terms self.now.factors.now) }
        requires shallow { self.now.moves.outs + depth_of (product_of (terms self.now.factors.now)) < 2 ^ 32 }
        requires at { slice_get (terms self.now.factors.now) place ≡ Some (neg (a.now ≐ b.now)) }
        ensures { IfOk result (IsReady self.now.moves.facts.now self.now.moves.outs (terms self.now.factors.now) (neg (b.now ≐ a.now)) 5) }
    {
        let turned = self.difference_exchanged(place, a, b)?;
        let again = self.again(place)?;
        then_behind(self.moves.alloc, again, self.factors, turned)
    }

    // The sides of a negated equality exchanged.
    fn difference_exchanged(&self, place: usize, a: &Val, b: &Val) -> Result<Deriv<'f>, NoMemory>
        requires factors { AreFactors self.now.moves.outs (terms self.now.factors.now) }
        requires shallow { self.now.moves.outs + depth_of (product_of (terms self.now.factors.now)) < 2 ^ 32 }
        requires at { slice_get (terms self.now.factors.now) place ≡ Some (neg (a.now ≐ b.now)) }
        ensures { IfOk result (IsRegrouped self.now.moves.facts.now self.now.moves.outs (neg (a.now ≐ b.now)) (neg (b.now ≐ a.now))) }
    {
        let alloc = self.moves.alloc;
        let whole = difference(alloc, a, b)?;
        let path = inside(alloc)?;
        let turned = self.sides_exchanged(place, a, b)?;
        turned.under(alloc, whole.get(), &path)
    }

    fn sides_exchanged(&self, place: usize, a: &Val, b: &Val) -> Result<Deriv<'f>, NoMemory>
        requires factors { AreFactors self.now.moves.outs (terms self.now.factors.now) }
        requires at { slice_get (terms self.now.factors.now) place ≡ Some (neg (a.now ≐ b.now)) }
        ensures { IfOk result (IsRegrouped self.now.moves.facts.now self.now.moves.outs (a.now ≐ b.now) (b.now ≐ a.now)) }
    {
        let alloc = self.moves.alloc;
        self.moves.eq_sym(a.copy(alloc)?, b.copy(alloc)?)
    }
}

fn difference(alloc: Global, a: &Val, b: &Val) -> Result<Boxed<U>, NoMemory>
    ensures { IfOk result (λ u. u ≡ neg (a.now ≐ b.now)) }
{
    let equality = Boxed::new(alloc, equality(alloc, a, b)?)?;
    Boxed::new(alloc, U::Not(equality))
}

// The path into a negation.
fn inside(alloc: Global) -> Result<Path, NoMemory>
    ensures { IfOk result (λ path. turns path ≡ turn.Inside ∷ []) }
{
    let mut path = Path::new(alloc);
    path.push(Run::Inside(1))?;
    Ok(path)
}
