//! Sums over values, and sums of terms.
ghost use Rattle.std.specs.Prelude.{◌≡◌, ◌+◌, ◌∷◌, [], IfOk, IsPermutation, None};
ghost use Rattle.u_terms.specs.Binding.{sums};
ghost use Rattle.u_terms.specs.declared.term.Val.TheVariants as v;
ghost use Rattle.u_rules.specs.Terms.{◌⊗◌, ◌⊕◌, ◌≐◌, O, S, add_leaves, put, sq, turned};
ghost use Rattle.u_rules.specs.Rows.{swap_fault};
ghost use Rattle.u_rules.specs.declared.rule.Arg.TheVariants as arg;
ghost use Rattle.u_rules.specs.declared.rule.Rule.TheVariants as rule;
ghost use Rattle.u_moves.specs.Derivations.{IsKnown};
ghost use Rattle.u_moves.specs.Moving.{IsKnownValue, IsMove};

use crate::NoMemory;
use crate::deriv::Deriv;
use crate::moves::Moves;
use u_rules::{Arg, Rule};
use u_terms::{List, U, Val};

#[tactic(auto, using(crate::proofs::steps::Rooted::applies))]
impl<'f> Moves<'f> {
    /// A sum becomes one with the same terms in any order, 0 left out or put in.
    pub fn add_ac(self, x: U, y: U) -> Result<Deriv<'f>, NoMemory>
        requires x { IsKnown 0 self.outs x }
        requires y { IsKnown 0 self.outs y }
        requires leaves { IsPermutation (add_leaves x) (add_leaves y) }
        ensures { IfOk result (IsMove self.entry rule.AddAc (arg.Term x ∷ arg.Term y ∷ []) x y) }
    {
        let args = vec![in self.alloc; Arg::Term(x), Arg::Term(y)]?;
        self.at_root(Rule::AddAc, List::from_vec(args))
    }

    /// The sum of 0 over all values becomes 0.
    pub fn sum_zero(self) -> Result<Deriv<'f>, NoMemory>
        ensures { IfOk result (IsMove self.entry rule.SumZero [] (S O) O) }
    {
        let args = Vec::new(self.alloc);
        self.at_root(Rule::SumZero, List::from_vec(args))
    }

    /// The sum of `f + g` over all values becomes two sums.
    pub fn sum_add(self, f: U, g: U) -> Result<Deriv<'f>, NoMemory>
        requires f { IsKnown 1 self.outs f }
        requires g { IsKnown 1 self.outs g }
        ensures { IfOk result (IsMove self.entry rule.SumAdd (arg.Body f ∷ arg.Body g ∷ []) (S (f ⊕ g)) (S f ⊕ S g)) }
    {
        let args = vec![in self.alloc; Arg::Body(f), Arg::Body(g)]?;
        self.at_root(Rule::SumAdd, List::from_vec(args))
    }

    /// `outer` sums over all values change places with the `inner` ones inside them. Each number is at least 1, and both
    /// are at most 2,048 together.
    pub fn sum_swap(self, outer: u32, inner: u32, f: U) -> Result<Deriv<'f>, NoMemory>
        requires f { IsKnown (outer + inner) self.outs f }
        requires counts { swap_fault outer inner ≡ None }
        ensures { IfOk result (IsMove self.entry rule.SumSwap (arg.Num outer ∷ arg.Num inner ∷ arg.Body f ∷ []) (sums (outer + inner) f) (sums (outer + inner) (turned outer inner f))) }
    {
        let args = vec![in self.alloc; Arg::Num(outer), Arg::Num(inner), Arg::Body(f)]?;
        self.at_root(Rule::SumSwap, List::from_vec(args))
    }

    /// A factor goes into a sum over all values.
    pub fn sum_mul(self, x: U, f: U) -> Result<Deriv<'f>, NoMemory>
        requires x { IsKnown 0 self.outs x }
        requires f { IsKnown 1 self.outs f }
        ensures { IfOk result (IsMove self.entry rule.SumMul (arg.Term x ∷ arg.Body f ∷ []) (x ⊗ S f) (S (x ⊗ f))) }
    {
        let args = vec![in self.alloc; Arg::Term(x), Arg::Body(f)]?;
        self.at_root(Rule::SumMul, List::from_vec(args))
    }

    /// In the squash of a sum over all values each member may be squashed.
    pub fn sum_sq(self, f: U) -> Result<Deriv<'f>, NoMemory>
        requires { IsKnown 1 self.outs f }
        ensures { IfOk result (IsMove self.entry rule.SumSq (arg.Body f ∷ []) (sq (S f)) (sq (S (sq f)))) }
    {
        let args = vec![in self.alloc; Arg::Body(f)]?;
        self.at_root(Rule::SumSq, List::from_vec(args))
    }

    /// The sum over the one value that equals `e` becomes the body at it.
    pub fn sum_point(self, e: Val, f: U) -> Result<Deriv<'f>, NoMemory>
        requires e { IsKnownValue self.outs e }
        requires f { IsKnown 1 self.outs f }
        ensures { IfOk result (IsMove self.entry rule.SumPoint (arg.Value e ∷ arg.Body f ∷ []) (S ((v.Bound 0 ≐ e) ⊗ f)) (put e f)) }
    {
        let args = vec![in self.alloc; Arg::Value(e), Arg::Body(f)]?;
        self.at_root(Rule::SumPoint, List::from_vec(args))
    }

    /// Beside the squash of a member, the squash of the sum over all values is no more.
    pub fn sum_use(self, e: Val, f: U) -> Result<Deriv<'f>, NoMemory>
        requires e { IsKnownValue self.outs e }
        requires f { IsKnown 1 self.outs f }
        ensures { IfOk result (IsMove self.entry rule.SumUse (arg.Value e ∷ arg.Body f ∷ []) (sq (put e f) ⊗ sq (S f)) (sq (put e f))) }
    {
        let args = vec![in self.alloc; Arg::Value(e), Arg::Body(f)]?;
        self.at_root(Rule::SumUse, List::from_vec(args))
    }
}
