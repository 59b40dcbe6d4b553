//! A term whose size is known after each step without a walk of the term.
ghost use Rattle.std.specs.Prelude.{◌≡◌, ◌+◌, ◌-◌, ◌≤◌, ◌<◌, ◌^◌, IfOk};
ghost use Rattle.u_terms.specs.Size.{depth as depth_of};
ghost use Rattle.u_rules.specs.Terms.{◌⊗◌};
ghost use Rattle.u_deriv.specs.Applying as applying;
ghost use Rattle.u_deriv.specs.Spending.{IsMeasured};
ghost use Rattle.proof_text.specs.Limits.{most_depth};
ghost use Rattle.proof_check.specs.Limits.{IsSmall, SidesAreSmall, sizes_for};
ghost use Rattle.proof_check.specs.Refusing.{KeepsTerm};
ghost use Rattle.proof_check.specs.TermSize as size;
ghost use Rattle.proof_check.specs.TermSize.{IsSteppable};

use crate::limits::{Passed, keep};
use std::alloc::{AllocError, Global};
use std::marker::Model;
use u_deriv::{Measured, Place, Step, StepFault, exchange_spending};
use u_rules::Sizes;
use u_terms::{Boxed, Facts, U, depth, nodes};

/// A term, its nodes, and a number that its depth does not pass. Where that number passes the limit, it is the depth.
#[derive(Drop)]
pub struct SizedTerm {
    term: U,
    nodes: u64,
    depth: u64,
}

impl Model for SizedTerm {
    ghost use Rattle.std.specs.Coded.{codes};
    ghost use Rattle.u_terms.specs.contracts.term.U as term_type;
    ghost use Rattle.u_terms.specs.Syntax.{U as TheU};
    ghost use Rattle.proof_check.specs.TermSize.{HasSize};

    ghost Value = { TheU };

    ghost coded = { Prim.hlevel (codes, term_type.the_row.coded) };

    ghost view = { λ sized. sized.term };

    ghost invariant = { λ sized. HasSize sized.term sized.nodes sized.depth };
}

impl SizedTerm {
    /// A copy of the term. It is gone through once.
    pub fn copy_of(alloc: Global, term: &U) -> Result<SizedTerm, AllocError>
        requires { IsSmall term.now }
        ensures { IfOk result (λ sized. sized ≡ term.now) }
    {
        let nodes = nodes(term);
        let depth = depth(term);
        Ok(SizedTerm {
            term: term.copy(alloc)?,
            nodes,
            depth,
        })
    }

    /// The product of the term with itself, in memory of its own.
    pub fn square_of(alloc: Global, x: &U) -> Result<SizedTerm, AllocError>
        requires { IsSmall x.now }
        ensures { IfOk result (λ sized. sized ≡ x.now ⊗ x.now) }
    {
        let nodes = nodes(x);
        let depth = depth(x);
        let left = Boxed::new(alloc, x.copy(alloc)?)?;
        let right = Boxed::new(alloc, x.copy(alloc)?)?;
        Ok(SizedTerm {
            term: U::Mul(left, right),
            nodes: 2 * nodes + 1,
            depth: depth + 1,
        })
    }

    /// Lends the term.
    pub fn term(&self) -> &U
        ensures { result.now ≡ self.now }
    {
        &self.term
    }

    /// Refuses a term that passes a limit.
    pub fn keep_limits(&self) -> Result<(), Passed>
        ensures { KeepsTerm self.now result }
    {
        keep(self.nodes, self.depth)
    }

    /// Exchanges the sides of the step's instance at the end of its path, and tells where that is. The step's arguments are used
    /// up. After a refusal the term is as before.
    pub fn exchange(
        &mut self,
        alloc: Global,
        facts: &Facts,
        outs: u32,
        step: &mut Step,
        measured: Measured,
    ) -> Result<Place, StepFault>
        requires steppable { IsSteppable self.old }
        requires shallow { outs + depth_of self.old + most_depth ≤ 2 ^ 32 }
        requires measured { IsMeasured facts.now step.old measured }
        requires small { SidesAreSmall (sizes_for facts.now step.old) }
        ensures { applying.IsExchanged facts.now outs self.old step.old self.new result }
    {
        let sizes = directed(step.forward, measured.sizes);
        match exchange_spending(alloc, facts, outs, &mut self.term, step, measured) {
            Ok(place) => {
                self.nodes = self.nodes + sizes.right_nodes - sizes.left_nodes;
                self.depth = depth_after(place.turns, self.depth, sizes.right_depth);
                Ok(place)
            }
            Err(fault) => Err(fault),
        }
    }
}

// The sizes with that of the side that a step writes on the right.
fn directed(forward: bool, sizes: Sizes) -> Sizes
    ensures { result ≡ size.directed forward sizes }
{
    if forward {
        return sizes;
    }
    Sizes {
        left_nodes: sizes.right_nodes,
        left_depth: sizes.right_depth,
        right_nodes: sizes.left_nodes,
        right_depth: sizes.left_depth,
    }
}

// How deep a term may be, of at most this depth, after a side of that depth is written so many turns down. At its root the side
// is all that there is.
fn depth_after(turns: u32, most: u64, side: u64) -> u64
    requires { turns + side < 2 ^ 64 }
    ensures { result ≡ size.depth_after turns most side }
{
    if turns == 0 {
        side
    } else {
        most.max(u64::from(turns) + side)
    }
}
