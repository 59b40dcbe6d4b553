//! Derivations of the parts of a term.
ghost use Rattle.std.specs.Prelude.{◌≡◌, ◌+◌, IfOk};
ghost use Rattle.u_terms.specs.Binding.{closed_at};
ghost use Rattle.u_rules.specs.Terms.{◌⊗◌, ◌⊕◌, S, neg, sq};
ghost use Rattle.u_congruence.specs.Congruence.{AreBeside, IsBy, IsFromTo, IsOneDown};

use crate::NoMemory;
use crate::whole::{Derived, closed, copied, made_in_turn, still};
use u_deriv::Run;
use u_moves::Moves;
use u_terms::{Boxed, U};

/// From a sum to the sum of what its parts lead to.
pub fn added<'f>(
    moves: Moves<'f>,
    left: Derived<'f>,
    right: Derived<'f>,
) -> Result<Derived<'f>, NoMemory>
    requires left { IsBy moves.facts.now moves.outs left }
    requires right { IsBy moves.facts.now moves.outs right }
    ensures ends { IfOk result (IsFromTo moves.entry.facts.now moves.entry.outs (left.entry.from ⊕ right.entry.from) (left.entry.to ⊕ right.entry.to)) }
    ensures costs { IfOk result (AreBeside left.entry right.entry) }
{
    let a = copied(moves.alloc, left.get().from())?;
    let b = copied(moves.alloc, right.get().from())?;
    let d = still(moves, Boxed::new(moves.alloc, U::Add(a, b))?)?;
    let d = made_in_turn(moves.alloc, d, Run::Left(1), left)?;
    made_in_turn(moves.alloc, d, Run::Right(1), right)
}

/// From a product to the product of what its parts lead to.
pub fn multiplied<'f>(
    moves: Moves<'f>,
    left: Derived<'f>,
    right: Derived<'f>,
) -> Result<Derived<'f>, NoMemory>
    requires left { IsBy moves.facts.now moves.outs left }
    requires right { IsBy moves.facts.now moves.outs right }
    ensures ends { IfOk result (IsFromTo moves.entry.facts.now moves.entry.outs (left.entry.from ⊗ right.entry.from) (left.entry.to ⊗ right.entry.to)) }
    ensures costs { IfOk result (AreBeside left.entry right.entry) }
{
    let a = copied(moves.alloc, left.get().from())?;
    let b = copied(moves.alloc, right.get().from())?;
    let d = still(moves, Boxed::new(moves.alloc, U::Mul(a, b))?)?;
    let d = made_in_turn(moves.alloc, d, Run::Left(1), left)?;
    made_in_turn(moves.alloc, d, Run::Right(1), right)
}

/// From a squash to the squash of what its part leads to.
pub fn squashed<'f>(moves: Moves<'f>, part: Derived<'f>) -> Result<Derived<'f>, NoMemory>
    requires { IsBy moves.facts.now moves.outs part }
    ensures ends { IfOk result (IsFromTo moves.entry.facts.now moves.entry.outs (sq part.entry.from) (sq part.entry.to)) }
    ensures costs { IfOk result (IsOneDown part.entry) }
{
    let a = copied(moves.alloc, part.get().from())?;
    let d = still(moves, Boxed::new(moves.alloc, U::Squash(a))?)?;
    made_in_turn(moves.alloc, d, Run::Inside(1), part)
}

/// From a negation to the negation of what its part leads to.
pub fn negated<'f>(moves: Moves<'f>, part: Derived<'f>) -> Result<Derived<'f>, NoMemory>
    requires { IsBy moves.facts.now moves.outs part }
    ensures ends { IfOk result (IsFromTo moves.entry.facts.now moves.entry.outs (neg part.entry.from) (neg part.entry.to)) }
    ensures costs { IfOk result (IsOneDown part.entry) }
{
    let a = copied(moves.alloc, part.get().from())?;
    let d = still(moves, Boxed::new(moves.alloc, U::Not(a))?)?;
    made_in_turn(moves.alloc, d, Run::Inside(1), part)
}

/// From a sum over all values to the sum over what its body leads to, where the name `outs` stands for the value.
pub fn summed<'f>(moves: Moves<'f>, part: Derived<'f>) -> Result<Derived<'f>, NoMemory>
    requires { IsBy moves.facts.now (moves.outs + 1) part }
    ensures ends { IfOk result (IsFromTo moves.entry.facts.now moves.entry.outs (S (closed_at part.entry.from moves.entry.outs)) (S (closed_at part.entry.to moves.entry.outs))) }
    ensures costs { IfOk result (IsOneDown part.entry) }
{
    let body = closed(moves.alloc, part.get().from(), moves.outs)?;
    let d = still(moves, Boxed::new(moves.alloc, U::Sum(body))?)?;
    made_in_turn(moves.alloc, d, Run::Inside(1), part)
}
