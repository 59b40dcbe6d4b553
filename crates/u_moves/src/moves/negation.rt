//! Negations.
ghost use Rattle.std.specs.Prelude.{◌∷◌, [], IfOk};
ghost use Rattle.u_rules.specs.Terms.{◌⊗◌, ◌⊕◌, O, I, neg, sq};
ghost use Rattle.u_rules.specs.declared.rule.Arg.TheVariants as arg;
ghost use Rattle.u_rules.specs.declared.rule.Rule.TheVariants as rule;
ghost use Rattle.u_moves.specs.Derivations.{IsKnown};
ghost use Rattle.u_moves.specs.Moving.{IsMove};

use crate::NoMemory;
use crate::deriv::Deriv;
use crate::moves::Moves;
use u_rules::{Arg, Rule};
use u_terms::{List, U};

#[tactic(auto, using(crate::proofs::steps::Rooted::applies))]
impl<'f> Moves<'f> {
    /// The negation of 0 becomes 1.
    pub fn not_zero(self) -> Result<Deriv<'f>, NoMemory>
        ensures { IfOk result (IsMove self.entry rule.NotZero [] (neg O) I) }
    {
        let args = Vec::new(self.alloc);
        self.at_root(Rule::NotZero, List::from_vec(args))
    }

    /// The negation of 1 becomes 0.
    pub fn not_one(self) -> Result<Deriv<'f>, NoMemory>
        ensures { IfOk result (IsMove self.entry rule.NotOne [] (neg I) O) }
    {
        let args = Vec::new(self.alloc);
        self.at_root(Rule::NotOne, List::from_vec(args))
    }

    /// The negation of a product becomes the squash of a sum of negations.
    pub fn not_mul(self, x: U, y: U) -> Result<Deriv<'f>, NoMemory>
        requires x { IsKnown 0 self.outs x }
        requires y { IsKnown 0 self.outs y }
        ensures { IfOk result (IsMove self.entry rule.NotMul (arg.Term x ∷ arg.Term y ∷ []) (neg (x ⊗ y)) (sq (neg x ⊕ neg y))) }
    {
        let args = vec![in self.alloc; Arg::Term(x), Arg::Term(y)]?;
        self.at_root(Rule::NotMul, List::from_vec(args))
    }

    /// The negation of a sum becomes a product of negations.
    pub fn not_add(self, x: U, y: U) -> Result<Deriv<'f>, NoMemory>
        requires x { IsKnown 0 self.outs x }
        requires y { IsKnown 0 self.outs y }
        ensures { IfOk result (IsMove self.entry rule.NotAdd (arg.Term x ∷ arg.Term y ∷ []) (neg (x ⊕ y)) (neg x ⊗ neg y)) }
    {
        let args = vec![in self.alloc; Arg::Term(x), Arg::Term(y)]?;
        self.at_root(Rule::NotAdd, List::from_vec(args))
    }

    /// The negation of a squash becomes that of the term.
    pub fn not_sq(self, x: U) -> Result<Deriv<'f>, NoMemory>
        requires { IsKnown 0 self.outs x }
        ensures { IfOk result (IsMove self.entry rule.NotSq (arg.Term x ∷ []) (neg (sq x)) (neg x)) }
    {
        let args = vec![in self.alloc; Arg::Term(x)]?;
        self.at_root(Rule::NotSq, List::from_vec(args))
    }

    /// The squash of a negation becomes the negation.
    pub fn sq_not(self, x: U) -> Result<Deriv<'f>, NoMemory>
        requires { IsKnown 0 self.outs x }
        ensures { IfOk result (IsMove self.entry rule.SqNot (arg.Term x ∷ []) (sq (neg x)) (neg x)) }
    {
        let args = vec![in self.alloc; Arg::Term(x)]?;
        self.at_root(Rule::SqNot, List::from_vec(args))
    }

    /// A term beside its negation becomes 0.
    pub fn not_self(self, x: U) -> Result<Deriv<'f>, NoMemory>
        requires { IsKnown 0 self.outs x }
        ensures { IfOk result (IsMove self.entry rule.NotSelf (arg.Term x ∷ []) (x ⊗ neg x) O) }
    {
        let args = vec![in self.alloc; Arg::Term(x)]?;
        self.at_root(Rule::NotSelf, List::from_vec(args))
    }

    /// The negation of a negation becomes the squash.
    pub fn not_not(self, x: U) -> Result<Deriv<'f>, NoMemory>
        requires { IsKnown 0 self.outs x }
        ensures { IfOk result (IsMove self.entry rule.NotNot (arg.Term x ∷ []) (neg (neg x)) (sq x)) }
    {
        let args = vec![in self.alloc; Arg::Term(x)]?;
        self.at_root(Rule::NotNot, List::from_vec(args))
    }

    /// The squash of a term and its negation together become 1.
    pub fn split(self, x: U) -> Result<Deriv<'f>, NoMemory>
        requires { IsKnown 0 self.outs x }
        ensures { IfOk result (IsMove self.entry rule.Split (arg.Term x ∷ []) (sq x ⊕ neg x) I) }
    {
        let args = vec![in self.alloc; Arg::Term(x)]?;
        self.at_root(Rule::Split, List::from_vec(args))
    }
}
