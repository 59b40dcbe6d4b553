//! Moves: one step at the root by each rule. A move of a part is made in a whole by `Deriv::then_under`.
ghost use Rattle.std.specs.Prelude.{IfOk};
ghost use Rattle.u_rules.specs.Rows.{row};
ghost use Rattle.u_deriv.specs.Editing.{left_of, right_of};
ghost use Rattle.u_moves.specs.Moving.{Applies, IsMove};

mod constraints;
mod equalities;
mod negation;
mod products;
mod squash;
mod sums;

use crate::NoMemory;
use crate::deriv::Deriv;
use plain_data::Kept;
use std::alloc::{AllocError, Global};
use u_deriv::{Path, Step};
use u_rules::{Arg, InstanceFault, Rule, instance};
use u_terms::{Facts, List};

/// Where moves are made: at the root of terms, by these facts, with the names from `outs` on for binders. Each move is a method, by
/// its rule's name: it takes the arguments of the rule and derives the right side from the left one. How long its line
/// is, `laws::lines_of_moves` says.
#[derive(Clone, Copy)]
pub struct Moves<'f> {
    pub alloc: Global,
    pub facts: &'f Facts,
    pub outs: u32,
}

impl<'f> Moves<'f> {
    // One step by a rule that applies and asks for no inner steps.
    fn at_root(self, rule: Rule, args: List<Arg>) -> Result<Deriv<'f>, NoMemory>
        requires { Applies self.facts.now self.outs rule args }
        ensures { IfOk result (IsMove self.entry rule args (left_of (row self.entry.facts.now rule args)) (right_of (row self.entry.facts.now rule args))) }
    {
        match instance(self.alloc, self.facts, rule, args.as_slice()) {
            Ok((from, to)) => {
                let step = Step {
                    path: Path::new(self.alloc),
                    forward: true,
                    rule,
                    args,
                    inner: List::new(self.alloc),
                };
                let (from, to) = (Kept::new(from), Kept::new(to));
                Deriv::one_step(self.alloc, self.facts, self.outs, from, step, to)
            }
            Err(InstanceFault::NoMemory) => Err(AllocError),
            Err(InstanceFault::BadInstance { .. }) => unreachable!(),
        }
    }
}
