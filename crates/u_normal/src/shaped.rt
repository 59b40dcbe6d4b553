//! Sums of blocks that have shapes, and one squash of such a block: a step for each block and one for the sum, with no limit.
ghost use Rattle.std.specs.Prelude.{◌≡◌, ◌↔◌, ◌∷◌, [], IfOk, IsTrue, MatchOption};
ghost use Rattle.u_terms.specs.Products.{product_of};
ghost use Rattle.u_terms.specs.Syntax.{U as Term};
ghost use Rattle.u_rules.specs.Terms.{mul_leaves, sq};
ghost use Rattle.u_deriv.specs.declared.run.Run.TheVariants as run;
ghost use Rattle.u_moves.specs.Derivations.{IsKnown};
ghost use Rattle.u_moves.specs.Lifting.{IsPart};
ghost use Rattle.normal_form.specs.Kinds.{ordered};
ghost use Rattle.normal_form.specs.LooseTerms.{IsLooseBlock, IsProduct};
ghost use Rattle.u_normal.specs.Shaped as spec;
ghost use Rattle.u_normal.specs.Shaped.{AreBriefParts, AreShaped, HasSomeShape, IsBrief, IsBriefBeside, IsBriefSum, IsMadeAt, IsShapedEnd, IsShaped};

use crate::NoMemory;
use crate::steps::then_in_row;
use normal_form::in_order;
use std::alloc::Global;
use term_shapes::shape_of;
use u_congruence::{Derived, copied, inside, made_in_turn, opened, unmoved};
use u_deriv::Run;
use u_moves::Moves;
use u_terms::{Boxed, U, same};

/// From a term of one of the two forms to a normal one that has the same shapes. None for any other term.
pub fn shaped<'f>(moves: Moves<'f>, u: &U) -> Result<Option<Derived<'f>>, NoMemory>
    requires { IsKnown 0 moves.outs u.now }
    ensures { IfOk result (λ found. MatchOption found (IsShaped moves.entry.outs u.now → ⊥) (IsShapedEnd moves.entry.facts.now moves.entry.outs u.now)) }
{
    match u {
        U::Squash(block) => squash_of_block(moves, u, block.get()),
        _ => sum_of_blocks(moves, u),
    }
}

// The same of a squash.
fn squash_of_block<'f>(moves: Moves<'f>, u: &U, block: &U) -> Result<Option<Derived<'f>>, NoMemory>
    requires known { IsKnown 0 moves.outs u.now }
    requires is { u.now ≡ sq block.now }
    ensures { IfOk result (λ found. MatchOption found (IsShaped moves.entry.outs u.now → ⊥) (IsShapedEnd moves.entry.facts.now moves.entry.outs u.now)) }
{
    if !has_shape(moves.alloc, moves.outs, block)? {
        return Ok(None);
    }
    let part = block_in_order(moves, block)?;
    Ok(Some(made_inside(moves, u, part)?))
}

// The same of any other term.
fn sum_of_blocks<'f>(moves: Moves<'f>, u: &U) -> Result<Option<Derived<'f>>, NoMemory>
    requires known { IsKnown 0 moves.outs u.now }
    requires other { (block : Term) → u.now ≡ sq block → ⊥ }
    ensures { IfOk result (λ found. MatchOption found (IsShaped moves.entry.outs u.now → ⊥) (IsShapedEnd moves.entry.facts.now moves.entry.outs u.now)) }
{
    if !have_shapes(moves.alloc, moves.outs, u)? {
        return Ok(None);
    }
    let each = blocks_in_order(moves, u)?;
    Ok(Some(then_in_row(moves, each)?))
}

// Whether each term that is added has a shape.
fn have_shapes(alloc: Global, outs: u32, u: &U) -> Result<bool, NoMemory>
    ensures { IfOk result (λ all. IsTrue all ↔ AreShaped outs u.now) }
{
    match u {
        U::Add(a, b) => {
            if !have_shapes(alloc, outs, a.get())? {
                return Ok(false);
            }
            have_shapes(alloc, outs, b.get())
        }
        _ => has_shape(alloc, outs, u),
    }
}

// Whether the term has a shape.
fn has_shape(alloc: Global, outs: u32, u: &U) -> Result<bool, NoMemory>
    ensures { IfOk result (λ has. IsTrue has ↔ HasSomeShape outs u.now) }
{
    Ok(shape_of(alloc, outs, u)?.is_some())
}

// The factors of each block by kinds.
fn blocks_in_order<'f>(moves: Moves<'f>, u: &U) -> Result<Derived<'f>, NoMemory>
    requires known { IsKnown 0 moves.outs u.now }
    requires shaped { AreShaped moves.outs u.now }
    ensures { IfOk result (IsBriefSum moves.entry.facts.now moves.entry.outs u.now) }
{
    match u {
        U::Add(a, b) => {
            let left = blocks_in_order(moves, a.get())?;
            let right = blocks_in_order(moves, b.get())?;
            made_beside(moves, u, left, right)
        }
        _ => block_in_order(moves, u),
    }
}

// The factors of a block by kinds, by one step at most.
fn block_in_order<'f>(moves: Moves<'f>, u: &U) -> Result<Derived<'f>, NoMemory>
    requires known { IsKnown 0 moves.outs u.now }
    requires block { IsLooseBlock u.now }
    ensures { IfOk result (IsBrief moves.entry.facts.now moves.entry.outs u.now (spec.tidied u.now) 1) }
{
    match u {
        U::Sum(f) => {
            let inner = inside(moves)?;
            let body = Boxed::new(moves.alloc, opened(moves.alloc, f.get(), moves.outs)?)?;
            let part = block_in_order(inner, body.get())?;
            made_inside(moves, u, part)
        }
        _ => product_in_order(moves, u),
    }
}

// The factors of a product by kinds, by one step at most.
fn product_in_order<'f>(moves: Moves<'f>, u: &U) -> Result<Derived<'f>, NoMemory>
    requires known { IsKnown 0 moves.outs u.now }
    requires product { IsProduct u.now }
    ensures { IfOk result (IsBrief moves.entry.facts.now moves.entry.outs u.now (product_of (ordered (mul_leaves u.now))) 1) }
{
    let row = Boxed::new(moves.alloc, in_order(moves.alloc, u)?)?;
    if same(u, row.get()) {
        return unmoved(moves, u);
    }
    let from = copied(moves.alloc, u)?;
    let step = moves.mul_ac(from.into_inner(), row.into_inner())?;
    Boxed::new(moves.alloc, step)
}

// The derivation, made one turn down in the whole term.
fn made_inside<'f>(moves: Moves<'f>, u: &U, part: Derived<'f>) -> Result<Derived<'f>, NoMemory>
    requires known { IsKnown 0 moves.outs u.now }
    requires facts { part.facts ≡ moves.facts.now }
    requires part { IsPart moves.outs (run.Inside 1 ∷ []) u.now part.outs part.from }
    ensures { IfOk result (IsMadeAt (run.Inside 1 ∷ []) moves.entry u.now part.entry) }
{
    let whole = unmoved(moves, u)?;
    made_in_turn(moves.alloc, whole, Run::Inside(1), part)
}

// Both derivations, made in the parts of the sum.
fn made_beside<'f>(
    moves: Moves<'f>,
    u: &U,
    left: Derived<'f>,
    right: Derived<'f>,
) -> Result<Derived<'f>, NoMemory>
    requires known { IsKnown 0 moves.outs u.now }
    requires parts { AreBriefParts moves.facts.now moves.outs u.now left right }
    ensures { IfOk result (IsBriefBeside moves.entry.facts.now moves.entry.outs u.now left.entry right.entry) }
{
    let whole = unmoved(moves, u)?;
    let half = made_in_turn(moves.alloc, whole, Run::Left(1), left)?;
    made_in_turn(moves.alloc, half, Run::Right(1), right)
}
