//! Single steps, and derivations one after the other.
ghost use Rattle.std.specs.Prelude.{◌≡◌, IfOk, IsPermutation};
ghost use Rattle.u_rules.specs.Terms.{◌≐◌, I, add_leaves, mul_leaves};
ghost use Rattle.u_congruence.specs.Congruence.{IsFromTo};
ghost use Rattle.u_moves.specs.Derivations.{IsKnown};
ghost use Rattle.u_moves.specs.Moving.{IsKnownValue};
ghost use Rattle.u_simple.specs.Steps.{IsOnePlainStep};

use crate::NoMemory;
use std::alloc::Global;
use u_congruence::Derived;
use u_moves::Moves;
use u_terms::{Boxed, U, Val};

/// A sum becomes one of the same terms.
pub fn sums_rearranged<'f>(moves: Moves<'f>, left: &U, right: &U) -> Result<Derived<'f>, NoMemory>
    requires left { IsKnown 0 moves.outs left.now }
    requires right { IsKnown 0 moves.outs right.now }
    requires leaves { IsPermutation (add_leaves left.now) (add_leaves right.now) }
    ensures ends { IfOk result (IsFromTo moves.entry.facts.now moves.entry.outs left.now right.now) }
    ensures step { IfOk result (IsOnePlainStep left.now right.now) }
{
    let x = left.copy(moves.alloc)?;
    let y = right.copy(moves.alloc)?;
    let step = moves.add_ac(x, y)?;
    Boxed::new(moves.alloc, step)
}

/// A product becomes one of the same factors.
pub fn products_rearranged<'f>(
    moves: Moves<'f>,
    left: &U,
    right: &U,
) -> Result<Derived<'f>, NoMemory>
    requires left { IsKnown 0 moves.outs left.now }
    requires right { IsKnown 0 moves.outs right.now }
    requires leaves { IsPermutation (mul_leaves left.now) (mul_leaves right.now) }
    ensures ends { IfOk result (IsFromTo moves.entry.facts.now moves.entry.outs left.now right.now) }
    ensures step { IfOk result (IsOnePlainStep left.now right.now) }
{
    let x = left.copy(moves.alloc)?;
    let y = right.copy(moves.alloc)?;
    let step = moves.mul_ac(x, y)?;
    Boxed::new(moves.alloc, step)
}

/// The sides of an equality change places.
pub fn turned_round<'f>(moves: Moves<'f>, a: &Val, b: &Val) -> Result<Derived<'f>, NoMemory>
    requires a { IsKnownValue moves.outs a.now }
    requires b { IsKnownValue moves.outs b.now }
    ensures { IfOk result (IsFromTo moves.entry.facts.now moves.entry.outs (a.now ≐ b.now) (b.now ≐ a.now)) }
{
    let a = a.copy(moves.alloc)?;
    let b = b.copy(moves.alloc)?;
    let step = moves.eq_sym(a, b)?;
    Boxed::new(moves.alloc, step)
}

/// An equality of a value with itself becomes `1`.
pub fn vanished<'f>(moves: Moves<'f>, a: &Val) -> Result<Derived<'f>, NoMemory>
    requires { IsKnownValue moves.outs a.now }
    ensures { IfOk result (IsFromTo moves.entry.facts.now moves.entry.outs (a.now ≐ a.now) I) }
{
    let step = moves.eq_refl(a.copy(moves.alloc)?)?;
    Boxed::new(moves.alloc, step)
}

/// The equality of copies.
pub fn equality(alloc: Global, a: &Val, b: &Val) -> Result<Boxed<U>, NoMemory>
    ensures { IfOk result (λ u. u ≡ a.now ≐ b.now) }
{
    let a = a.copy(alloc)?;
    let b = b.copy(alloc)?;
    Boxed::new(alloc, U::Eq(a, b))
}
