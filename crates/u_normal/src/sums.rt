//! Sums over all values of sums of blocks.
ghost use Rattle.std.specs.Prelude.{IfOk};
ghost use Rattle.u_rules.specs.Terms.{S};
ghost use Rattle.u_moves.specs.Derivations.{IsKnown};
ghost use Rattle.u_congruence.specs.Congruence.{IsBy, IsFromTo};
ghost use Rattle.u_normal.specs.Leading.{Leads};
ghost use Rattle.u_normal.specs.Summing as spec;
ghost use Rattle.u_normal.specs.Summing.{IsBlockSum, IsSumOverBlocks};

use crate::NoMemory;
use crate::steps::{parted, zero_sum};
use u_congruence::{Derived, added, copied, joined, still};
use u_moves::Moves;
use u_terms::{Boxed, U};

/// From a sum over all values of a sum to a sum: a sum over all values goes before each term.
pub fn over_each<'f>(moves: Moves<'f>, f: &U) -> Result<Derived<'f>, NoMemory>
    requires { IsKnown 1 moves.outs f.now }
    ensures { IfOk result (IsFromTo moves.entry.facts.now moves.entry.outs (S f.now) (spec.over_each f.now)) }
{
    match f {
        U::Zero => zero_sum(moves),
        U::Add(a, b) => {
            let split = parted(moves, a.get(), b.get())?;
            let left = over_each(moves, a.get())?;
            let right = over_each(moves, b.get())?;
            let both = added(moves, left, right)?;
            joined(moves.alloc, split, both)
        }
        _ => {
            let body = copied(moves.alloc, f)?;
            still(moves, Boxed::new(moves.alloc, U::Sum(body))?)
        }
    }
}

/// The derivation, and then a sum over all values before each block of its last term.
pub fn then_over_each<'f>(moves: Moves<'f>, d: Derived<'f>) -> Result<Derived<'f>, NoMemory>
    requires by { IsBy moves.facts.now moves.outs d }
    requires sum { IsSumOverBlocks d.to }
    ensures { IfOk result (Leads IsBlockSum moves.entry.facts.now moves.entry.outs d.entry.from) }
{
    match d.get().to() {
        U::Sum(f) => {
            let each = over_each(moves, f.get())?;
            joined(moves.alloc, d, each)
        }
        _ => unreachable!(),
    }
}
