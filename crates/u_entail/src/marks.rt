//! A mark among the factors, put behind them once more: a predicate or a negation is its own square.
ghost use Rattle.std.specs.Prelude.{◌≡◌, IfOk, Some, slice_get};
ghost use Rattle.u_terms.specs.Products.{product_of};
ghost use Rattle.u_rules.specs.Terms.{◌⊗◌, sq, terms};
ghost use Rattle.u_moves.specs.Derivations.{IsKnown};
ghost use Rattle.u_entail.specs.Sides.{AreFactors};
ghost use Rattle.u_entail.specs.Gaining.{IsRegrouped};
ghost use Rattle.u_entail.specs.Marks.{HasMark, IsAgain, IsDoubled, IsDoubledBehind, IsMark, IsParted, StandsAgain, without};
ghost use Rattle.u_entail.specs.Spines as spec;

use crate::NoMemory;
use crate::following::Front;
use crate::spine::{spine, then_behind};
use u_moves::{Deriv, Moves};
use u_terms::{Boxed, U};

/// From the product of the factors to that with the one at the place, a mark, behind them once more. Places count from 0.
pub fn repeat_mark<'f>(
    moves: Moves<'f>,
    factors: &[&U],
    place: usize,
) -> Result<Deriv<'f>, NoMemory>
    requires factors { AreFactors moves.outs (terms factors.now) }
    requires mark { HasMark (terms factors.now) place }
    ensures { IfOk result (StandsAgain moves.entry.facts.now moves.entry.outs (terms factors.now) place) }
{
    let front = Front { moves, factors };
    front.again(place)
}

impl<'f, 'p, 'a> Front<'f, 'p, 'a> {
    /// The factor at the place behind the factors once more.
    pub fn again(&self, place: usize) -> Result<Deriv<'f>, NoMemory>
        requires factors { AreFactors self.now.moves.outs (terms self.now.factors.now) }
        requires mark { HasMark (terms self.now.factors.now) place }
        ensures { IfOk result (StandsAgain self.now.moves.facts.now self.now.moves.outs (terms self.now.factors.now) place) }
    {
        let others = self.others(place)?;
        self.again_behind(others.as_slice(), place, self.factors[place])
    }

    fn again_behind(&self, others: &[&U], place: usize, mark: &U) -> Result<Deriv<'f>, NoMemory>
        requires factors { AreFactors self.now.moves.outs (terms self.now.factors.now) }
        requires parted { IsParted (terms self.now.factors.now) (terms others.now) place mark.now }
        ensures { IfOk result (IsAgain self.now.moves.facts.now self.now.moves.outs (terms self.now.factors.now) mark.now) }
    {
        let doubled = self.doubled_behind(others, place, mark)?;
        let gathered = self.mark_gathered(others, place, mark)?;
        doubled.then(self.moves.alloc, gathered)
    }

    // The factors but for the mark.
    fn others(&self, place: usize) -> Result<Vec<&'a U>, NoMemory>
        requires { HasMark (terms self.now.factors.now) place }
        ensures { IfOk result (λ others. terms others.items ≡ without place (terms self.now.factors.now)) }
    {
        let mut others: Vec<&U> = self.factors.iter().copied().collect(self.moves.alloc)?;
        others.remove(place);
        Ok(others)
    }

    // The mark comes last, and stands there twice.
    fn doubled_behind(&self, others: &[&U], place: usize, mark: &U) -> Result<Deriv<'f>, NoMemory>
        requires factors { AreFactors self.now.moves.outs (terms self.now.factors.now) }
        requires parted { IsParted (terms self.now.factors.now) (terms others.now) place mark.now }
        ensures { IfOk result (IsDoubledBehind self.now.moves.facts.now self.now.moves.outs (terms self.now.factors.now) (terms others.now) mark.now) }
    {
        let last = self.mark_last(others, place, mark)?;
        let twice = doubled(self.moves, mark)?;
        then_behind(self.moves.alloc, last, others, twice)
    }

    #[tactic(auto, using(crate::proofs::products::Plain::one_move))]
    fn mark_last(&self, others: &[&U], place: usize, mark: &U) -> Result<Deriv<'f>, NoMemory>
        requires factors { AreFactors self.now.moves.outs (terms self.now.factors.now) }
        requires parted { IsParted (terms self.now.factors.now) (terms others.now) place mark.now }
        ensures { IfOk result (IsRegrouped self.now.moves.facts.now self.now.moves.outs (product_of (terms self.now.factors.now)) (spec.spine (terms others.now) mark.now)) }
    {
        let whole = self.whole()?;
        let last = spine(self.moves.alloc, others, mark.copy(self.moves.alloc)?)?;
        self.moves.mul_ac(whole.into_inner(), last)
    }

    // One of the two goes back among the factors.
    #[tactic(auto, using(crate::proofs::products::Plain::one_move))]
    fn mark_gathered(&self, others: &[&U], place: usize, mark: &U) -> Result<Deriv<'f>, NoMemory>
        requires factors { AreFactors self.now.moves.outs (terms self.now.factors.now) }
        requires parted { IsParted (terms self.now.factors.now) (terms others.now) place mark.now }
        ensures { IfOk result (IsRegrouped self.now.moves.facts.now self.now.moves.outs (spec.spine (terms others.now) (mark.now ⊗ mark.now)) (spec.spine (terms self.now.factors.now) mark.now)) }
    {
        let twice = self.twice_behind(others, mark)?;
        let gathered = spine(self.moves.alloc, self.factors, mark.copy(self.moves.alloc)?)?;
        self.moves.mul_ac(twice.into_inner(), gathered)
    }

    fn twice_behind(&self, others: &[&U], mark: &U) -> Result<Boxed<U>, NoMemory>
        ensures { IfOk result (λ u. u ≡ spec.spine (terms others.now) (mark.now ⊗ mark.now)) }
    {
        let alloc = self.moves.alloc;
        let first = Boxed::new(alloc, mark.copy(alloc)?)?;
        let second = Boxed::new(alloc, mark.copy(alloc)?)?;
        let twice = spine(alloc, others, U::Mul(first, second))?;
        Boxed::new(alloc, twice)
    }

    // The product of the factors.
    fn whole(&self) -> Result<Boxed<U>, NoMemory>
        ensures { IfOk result (λ u. u ≡ product_of (terms self.now.factors.now)) }
    {
        let alloc = self.moves.alloc;
        let count = self.factors.len();
        if count == 0 {
            return Boxed::new(alloc, U::One);
        }
        let last = self.factors[count - 1].copy(alloc)?;
        Boxed::new(alloc, spine(alloc, &self.factors[..count - 1], last)?)
    }
}

// A mark stands twice.
fn doubled<'f>(moves: Moves<'f>, mark: &U) -> Result<Deriv<'f>, NoMemory>
    requires known { IsKnown 0 moves.outs mark.now }
    requires mark { IsMark mark.now }
    ensures { IfOk result (IsDoubled moves.entry.facts.now moves.entry.outs mark.now) }
{
    let squared = with_square(moves, mark)?;
    let plain = unsquashed(moves, mark)?;
    then_behind(moves.alloc, squared, &[mark], plain)
}

// Beside a term its squash.
#[tactic(auto, using(crate::proofs::products::Plain::one_move))]
fn with_square<'f>(moves: Moves<'f>, term: &U) -> Result<Deriv<'f>, NoMemory>
    requires { IsKnown 0 moves.outs term.now }
    ensures { IfOk result (IsRegrouped moves.entry.facts.now moves.entry.outs term.now (term.now ⊗ sq term.now)) }
{
    let absorbed = moves.sq_abs(term.copy(moves.alloc)?)?;
    absorbed.back(moves.alloc)
}

// The squash of a mark is the mark.
#[tactic(auto, using(crate::proofs::products::Plain::one_move))]
fn unsquashed<'f>(moves: Moves<'f>, mark: &U) -> Result<Deriv<'f>, NoMemory>
    requires known { IsKnown 0 moves.outs mark.now }
    requires mark { IsMark mark.now }
    ensures { IfOk result (IsRegrouped moves.entry.facts.now moves.entry.outs (sq mark.now) mark.now) }
{
    let copy = mark.copy(moves.alloc)?;
    match copy {
        U::Pred(symbol, points) => moves.sq_pred(symbol, points),
        U::Not(x) => moves.sq_not(x.into_inner()),
        _ => unreachable!(),
    }
}
