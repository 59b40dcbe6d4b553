//! Products.
ghost use Rattle.std.specs.Prelude.{◌∷◌, [], IfOk, IsPermutation};
ghost use Rattle.u_rules.specs.Terms.{◌⊗◌, ◌⊕◌, O, mul_leaves};
ghost use Rattle.u_rules.specs.declared.rule.Arg.TheVariants as arg;
ghost use Rattle.u_rules.specs.declared.rule.Rule.TheVariants as rule;
ghost use Rattle.u_moves.specs.Derivations.{IsKnown};
ghost use Rattle.u_moves.specs.Moving.{IsMove};

use crate::NoMemory;
use crate::deriv::Deriv;
use crate::moves::Moves;
use u_rules::{Arg, Rule};
use u_terms::{List, U};

#[tactic(auto, using(crate::proofs::steps::Rooted::applies))]
impl<'f> Moves<'f> {
    /// A product becomes one with the same factors in any order, 1 left out or put in.
    pub fn mul_ac(self, x: U, y: U) -> Result<Deriv<'f>, NoMemory>
        requires x { IsKnown 0 self.outs x }
        requires y { IsKnown 0 self.outs y }
        requires leaves { IsPermutation (mul_leaves x) (mul_leaves y) }
        ensures { IfOk result (IsMove self.entry rule.MulAc (arg.Term x ∷ arg.Term y ∷ []) x y) }
    {
        let args = vec![in self.alloc; Arg::Term(x), Arg::Term(y)]?;
        self.at_root(Rule::MulAc, List::from_vec(args))
    }

    /// A product with 0 becomes 0.
    pub fn mul_zero(self, x: U) -> Result<Deriv<'f>, NoMemory>
        requires { IsKnown 0 self.outs x }
        ensures { IfOk result (IsMove self.entry rule.MulZero (arg.Term x ∷ []) (x ⊗ O) O) }
    {
        let args = vec![in self.alloc; Arg::Term(x)]?;
        self.at_root(Rule::MulZero, List::from_vec(args))
    }

    /// A factor is distributed over a sum.
    pub fn distr(self, x: U, y: U, z: U) -> Result<Deriv<'f>, NoMemory>
        requires x { IsKnown 0 self.outs x }
        requires y { IsKnown 0 self.outs y }
        requires z { IsKnown 0 self.outs z }
        ensures { IfOk result (IsMove self.entry rule.Distr (arg.Term x ∷ arg.Term y ∷ arg.Term z ∷ []) (x ⊗ (y ⊕ z)) (x ⊗ y ⊕ x ⊗ z)) }
    {
        let args = vec![in self.alloc; Arg::Term(x), Arg::Term(y), Arg::Term(z)]?;
        self.at_root(Rule::Distr, List::from_vec(args))
    }
}
