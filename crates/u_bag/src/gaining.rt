//! Products that meet: each gains the factors of the other one that it lacks.
ghost use Rattle.std.specs.Prelude.{◌≡◌, ◌<◌, ◌+◌, ◌^◌, ◌∷◌, ◌++◌, ◌↔◌, [], IfOk, IfSome, IsPermutation, IsTrue};
ghost use Rattle.data_model.specs.Lists.{Each};
ghost use Rattle.u_terms.specs.Products as products;
ghost use Rattle.u_terms.specs.Size.{depth as depth_of};
ghost use Rattle.u_rules.specs.Terms.{◌≐◌, mul_leaves, terms};
ghost use Rattle.u_moves.specs.Derivations.{IsKnown};
ghost use Rattle.u_congruence.specs.Congruence.{IsBy, IsFromTo};
ghost use Rattle.u_entail.specs.Gaining.{Begins};
ghost use Rattle.u_entail.specs.Marks.{IsMark};
ghost use Rattle.u_entail.specs.Sides.{AreFactors};
ghost use Rattle.u_entail.specs.Small.{AreBasic};
ghost use Rattle.u_bag.specs.Costs.{FactorCosts, GainCosts, IsOneStepAtMost, KeepsProductCosts, MetCosts, RowCosts};
ghost use Rattle.u_bag.specs.Rows.{AreMet, GoesOn, IsFactorGained, IsGaining, IsMarkGained, IsRowWith, IsSingle, LeadsToRow};

use crate::NoMemory;
use crate::differences::differences_of;
use crate::regrouping::{end_of, joined_by, turned_back};
use normal_form::product;
use std::alloc::{AllocError, Global};
use u_congruence::{Derived, copied, joined, still};
use u_entail::{append, copy_mark};
use u_equal::Classes;
use u_moves::{Deriv, Moves};
use u_rules::leaves;
use u_simple::products_rearranged;
use u_terms::{Boxed, U, Val, depth, same};

/// Names and depth together, and the number of factors, are below this.
const ROOM: u64 = 0x1_0000_0000;

/// A product in a row, to which a derivation leads.
#[derive(Drop)]
pub struct Row<'f, 'a> {
    pub deriv: Derived<'f>,
    pub factors: Vec<&'a U>,
}

/// From the one product to the other, if the factors that either lacks are entailed, one by one, by those that it has.
pub fn products_meet<'f>(
    moves: Moves<'f>,
    left: &U,
    right: &U,
) -> Result<Option<Derived<'f>>, NoMemory>
    requires left { IsKnown 0 moves.outs left.now }
    requires right { IsKnown 0 moves.outs right.now }
    ensures leads { IfOk result (AreMet moves.entry.facts.now moves.entry.outs left.now right.now) }
    ensures costs { IfOk result (λ found. IfSome found (KeepsProductCosts left.now right.now)) }
{
    let lefts = leaves(moves.alloc, left, true)?;
    let rights = leaves(moves.alloc, right, true)?;
    let apart = differences_of(moves.alloc, lefts.as_slice(), rights.as_slice())?;
    let Some(down) = gained(moves, left, apart.right.as_slice())? else {
        return Ok(None);
    };
    let Some(up) = gained(moves, right, apart.left.as_slice())? else {
        return Ok(None);
    };
    Ok(Some(met(moves, down, up)?))
}

// The first derivation, and then the other one backward, where their last terms are products of the same factors.
fn met<'f>(moves: Moves<'f>, down: Derived<'f>, up: Derived<'f>) -> Result<Derived<'f>, NoMemory>
    requires down { IsBy moves.facts.now moves.outs down }
    requires up { IsBy moves.facts.now moves.outs up }
    requires leaves { IsPermutation (mul_leaves down.to) (mul_leaves up.to) }
    ensures ends { IfOk result (IsFromTo moves.entry.facts.now moves.entry.outs down.entry.from up.entry.from) }
    ensures costs { IfOk result (MetCosts down.entry up.entry) }
{
    let between = rearranged(moves, end_of(&down), end_of(&up))?;
    let back = turned_back(moves.alloc, up)?;
    joined_by(moves.alloc, down, between, back)
}

// From a product to one with these factors too, if each is entailed by its own.
fn gained<'f>(moves: Moves<'f>, u: &U, wanted: &[&U]) -> Result<Option<Derived<'f>>, NoMemory>
    requires known { IsKnown 0 moves.outs u.now }
    requires wanted { Each (IsKnown 0 moves.outs) (terms wanted.now) }
    requires leaves { Each IsSingle (terms wanted.now) }
    ensures leads { IfOk result (IsGaining moves.entry.facts.now moves.entry.outs u.now (terms wanted.now)) }
    ensures costs { IfOk result (λ found. IfSome found (λ d. AreBasic (mul_leaves u.now ++ terms wanted.now) → GainCosts u.now (terms wanted.now) d)) }
{
    if wanted.is_empty() {
        return Ok(Some(still(moves, copied(moves.alloc, u)?)?));
    }
    let row = in_row(moves, u)?;
    let classes = classes_of(moves.alloc, u)?;
    match with_all(moves, &classes, row, wanted)? {
        Some(row) => Ok(Some(row.deriv)),
        None => Ok(None),
    }
}

// The classes of a product. There is no memory for 2^32 factors.
fn classes_of<'a>(alloc: Global, u: &'a U) -> Result<Classes<'a>, NoMemory>
    ensures { IfOk result (λ classes. classes ≡ u.now) }
{
    let factors = leaves(alloc, u, true)?;
    if factors.len() as u64 >= ROOM {
        return Err(AllocError);
    }
    Classes::of(alloc, u)
}

// From a product to its factors in a row.
fn in_row<'f, 'a>(moves: Moves<'f>, u: &'a U) -> Result<Row<'f, 'a>, NoMemory>
    requires { IsKnown 0 moves.outs u.now }
    ensures leads { IfOk result (GoesOn moves.entry.facts.now moves.entry.outs u.now (mul_leaves u.now) []) }
    ensures costs { IfOk result (λ row. IsOneStepAtMost u.now (products.product_of (mul_leaves u.now)) row.deriv) }
{
    let factors = leaves(moves.alloc, u, true)?.into_vec();
    let row = Boxed::new(moves.alloc, product_of(moves.alloc, factors.as_slice())?)?;
    let deriv = rearranged(moves, u, row.get())?;
    Ok(Row { deriv, factors })
}

// From a product to one of the same factors, without a step where they are one.
fn rearranged<'f>(moves: Moves<'f>, u: &U, row: &U) -> Result<Derived<'f>, NoMemory>
    requires u { IsKnown 0 moves.outs u.now }
    requires row { IsKnown 0 moves.outs row.now }
    requires leaves { IsPermutation (mul_leaves u.now) (mul_leaves row.now) }
    ensures ends { IfOk result (IsFromTo moves.entry.facts.now moves.entry.outs u.now row.now) }
    ensures costs { IfOk result (IsOneStepAtMost u.now row.now) }
{
    if same(u, row) {
        still(moves, copied(moves.alloc, u)?)
    } else {
        products_rearranged(moves, u, row)
    }
}

// The product of copies.
fn product_of(alloc: Global, factors: &[&U]) -> Result<U, NoMemory>
    ensures { IfOk result (λ u. u ≡ products.product_of (terms factors.now)) }
{
    let mut copies = Vec::with_capacity(alloc, factors.len())?;
    for factor in factors {
        copies.push(factor.copy(alloc)?)?;
    }
    product(alloc, copies)
}

// The same row with these factors behind it.
fn with_all<'f, 'a>(
    moves: Moves<'f>,
    classes: &Classes<'_>,
    row: Row<'f, 'a>,
    wanted: &[&'a U],
) -> Result<Option<Row<'f, 'a>>, NoMemory>
    requires row { LeadsToRow moves.facts.now moves.outs classes.now row }
    requires wanted { Each (IsKnown 0 moves.outs) (terms wanted.now) }
    ensures leads { IfOk result (IsRowWith moves.entry.facts.now moves.entry.outs classes.now (terms row.entry.factors.items) (terms wanted.now)) }
    ensures costs { IfOk result (λ found. IfSome found (λ more. AreBasic (terms more.factors.items) → RowCosts classes.now row.entry (terms wanted.now) more)) }
{
    match wanted {
        [] => Ok(Some(row)),
        [factor, rest @ ..] => match with_one(moves, classes, row, *factor)? {
            Some(row) => with_all(moves, classes, row, rest),
            None => Ok(None),
        },
    }
}

// The same row with this factor behind it.
fn with_one<'f, 'a>(
    moves: Moves<'f>,
    classes: &Classes<'_>,
    row: Row<'f, 'a>,
    factor: &'a U,
) -> Result<Option<Row<'f, 'a>>, NoMemory>
    requires row { LeadsToRow moves.facts.now moves.outs classes.now row }
    requires known { IsKnown 0 moves.outs factor.now }
    ensures leads { IfOk result (IsRowWith moves.entry.facts.now moves.entry.outs classes.now (terms row.entry.factors.items) (factor.now ∷ [])) }
    ensures costs { IfOk result (λ found. IfSome found (λ more. AreBasic (terms more.factors.items) → RowCosts classes.now row.entry (factor.now ∷ []) more)) }
{
    let Row { deriv, mut factors } = row;
    if !has_room(moves, end_of(&deriv), factors.len()) {
        return Err(AllocError);
    }
    match factor_gained(moves, classes, factors.as_slice(), factor)? {
        Some(step) => {
            let deriv = joined(moves.alloc, deriv, step)?;
            factors.push(factor)?;
            Ok(Some(Row { deriv, factors }))
        }
        None => Ok(None),
    }
}

// Whether there is room for names in a term, and for a number of factors.
fn has_room(moves: Moves<'_>, u: &U, factors: usize) -> bool
    ensures shallow { IsTrue result → moves.entry.outs + depth_of u.now < 2 ^ 32 }
    ensures few { IsTrue result → factors < 2 ^ 32 }
{
    u64::from(moves.outs).saturating_add(depth(u)) < ROOM && (factors as u64) < ROOM
}

// From the product of the factors to that with the wanted one behind them, if it is entailed by the first of them.
fn factor_gained<'f>(
    moves: Moves<'f>,
    classes: &Classes<'_>,
    factors: &[&U],
    wanted: &U,
) -> Result<Option<Derived<'f>>, NoMemory>
    requires factors { AreFactors moves.outs (terms factors.now) }
    requires begins { Begins classes.now (terms factors.now) }
    requires shallow { moves.outs + depth_of (products.product_of (terms factors.now)) < 2 ^ 32 }
    requires wanted { IsKnown 0 moves.outs wanted.now }
    ensures leads { IfOk result (IsFactorGained moves.entry.facts.now moves.entry.outs classes.now (terms factors.now) wanted.now) }
    ensures costs { IfOk result (λ found. IfSome found (λ d. AreBasic (terms factors.now) → FactorCosts classes.now (terms factors.now) wanted.now d)) }
{
    match wanted {
        U::Eq(a, b) => equality_gained(moves, classes, factors, a, b),
        _ => mark_gained(moves, classes, factors, wanted),
    }
}

fn equality_gained<'f>(
    moves: Moves<'f>,
    classes: &Classes<'_>,
    factors: &[&U],
    a: &Val,
    b: &Val,
) -> Result<Option<Derived<'f>>, NoMemory>
    requires factors { AreFactors moves.outs (terms factors.now) }
    requires begins { Begins classes.now (terms factors.now) }
    requires shallow { moves.outs + depth_of (products.product_of (terms factors.now)) < 2 ^ 32 }
    requires wanted { IsKnown 0 moves.outs (a.now ≐ b.now) }
    ensures leads { IfOk result (IsFactorGained moves.entry.facts.now moves.entry.outs classes.now (terms factors.now) (a.now ≐ b.now)) }
    ensures costs { IfOk result (λ found. IfSome found (λ d. AreBasic (terms factors.now) → FactorCosts classes.now (terms factors.now) (a.now ≐ b.now) d)) }
{
    match append(moves, classes, factors, a, b)? {
        Some(deriv) => Ok(Some(Boxed::new(moves.alloc, deriv)?)),
        None => Ok(None),
    }
}

// The same of a mark: by the first one that it follows from.
fn mark_gained<'f>(
    moves: Moves<'f>,
    classes: &Classes<'_>,
    factors: &[&U],
    wanted: &U,
) -> Result<Option<Derived<'f>>, NoMemory>
    requires factors { AreFactors moves.outs (terms factors.now) }
    requires begins { Begins classes.now (terms factors.now) }
    requires shallow { moves.outs + depth_of (products.product_of (terms factors.now)) < 2 ^ 32 }
    ensures leads { IfOk result (IsMarkGained moves.entry.facts.now moves.entry.outs classes.now (terms factors.now) wanted.now) }
    ensures costs { IfOk result (λ found. IfSome found (λ d. AreBasic (terms factors.now) → FactorCosts classes.now (terms factors.now) wanted.now d)) }
{
    for (place, factor) in factors.iter().enumerate() {
        if is_mark(factor) {
            if let Some(deriv) = copy_mark(moves, classes, factors, place, wanted)? {
                return Ok(Some(Boxed::new(moves.alloc, deriv)?));
            }
        }
    }
    Ok(None)
}

// Whether a factor is a predicate or a negation.
fn is_mark(u: &U) -> bool
    ensures { IsTrue result ↔ IsMark u.now }
{
    match u {
        U::Pred(_, _) => true,
        U::Not(_) => true,
        _ => false,
    }
}
