//! Squashes.
ghost use Rattle.std.specs.Prelude.{◌≡◌, ◌∷◌, [], IfOk};
ghost use Rattle.u_rules.specs.Terms.{◌⊗◌, ◌⊕◌, ◌≐◌, O, I, P, sq};
ghost use Rattle.u_rules.specs.declared.rule.Arg.TheVariants as arg;
ghost use Rattle.u_rules.specs.declared.rule.Rule.TheVariants as rule;
ghost use Rattle.u_moves.specs.Derivations.{IsKnown, IsOneStep};
ghost use Rattle.u_moves.specs.Moving.{AreKnownValues, IsKnownValue, IsMove, fix_step};

use crate::NoMemory;
use crate::deriv::Deriv;
use crate::moves::Moves;
use plain_data::Kept;
use u_deriv::{Path, Step};
use u_rules::{Arg, Rule};
use u_terms::{Boxed, List, U, Val};

#[tactic(auto, using(crate::proofs::steps::Rooted::applies))]
impl<'f> Moves<'f> {
    /// The squash of 0 becomes 0.
    pub fn sq_zero(self) -> Result<Deriv<'f>, NoMemory>
        ensures { IfOk result (IsMove self.entry rule.SqZero [] (sq O) O) }
    {
        let args = Vec::new(self.alloc);
        self.at_root(Rule::SqZero, List::from_vec(args))
    }

    /// The squash of a sum with 1 becomes 1.
    pub fn sq_one(self, x: U) -> Result<Deriv<'f>, NoMemory>
        requires { IsKnown 0 self.outs x }
        ensures { IfOk result (IsMove self.entry rule.SqOne (arg.Term x ∷ []) (sq (I ⊕ x)) I) }
    {
        let args = vec![in self.alloc; Arg::Term(x)]?;
        self.at_root(Rule::SqOne, List::from_vec(args))
    }

    /// In the squash of a sum a squashed term becomes the term.
    pub fn sq_add(self, x: U, y: U) -> Result<Deriv<'f>, NoMemory>
        requires x { IsKnown 0 self.outs x }
        requires y { IsKnown 0 self.outs y }
        ensures { IfOk result (IsMove self.entry rule.SqAdd (arg.Term x ∷ arg.Term y ∷ []) (sq (sq x ⊕ y)) (sq (x ⊕ y))) }
    {
        let args = vec![in self.alloc; Arg::Term(x), Arg::Term(y)]?;
        self.at_root(Rule::SqAdd, List::from_vec(args))
    }

    /// A product of squashes becomes one squash.
    pub fn sq_mul(self, x: U, y: U) -> Result<Deriv<'f>, NoMemory>
        requires x { IsKnown 0 self.outs x }
        requires y { IsKnown 0 self.outs y }
        ensures { IfOk result (IsMove self.entry rule.SqMul (arg.Term x ∷ arg.Term y ∷ []) (sq x ⊗ sq y) (sq (x ⊗ y))) }
    {
        let args = vec![in self.alloc; Arg::Term(x), Arg::Term(y)]?;
        self.at_root(Rule::SqMul, List::from_vec(args))
    }

    /// Of a squash twice, one is left.
    pub fn sq_dup(self, x: U) -> Result<Deriv<'f>, NoMemory>
        requires { IsKnown 0 self.outs x }
        ensures { IfOk result (IsMove self.entry rule.SqDup (arg.Term x ∷ []) (sq x ⊗ sq x) (sq x)) }
    {
        let args = vec![in self.alloc; Arg::Term(x)]?;
        self.at_root(Rule::SqDup, List::from_vec(args))
    }

    /// Beside a term, its squash is no more.
    pub fn sq_abs(self, x: U) -> Result<Deriv<'f>, NoMemory>
        requires { IsKnown 0 self.outs x }
        ensures { IfOk result (IsMove self.entry rule.SqAbs (arg.Term x ∷ []) (x ⊗ sq x) x) }
    {
        let args = vec![in self.alloc; Arg::Term(x)]?;
        self.at_root(Rule::SqAbs, List::from_vec(args))
    }

    /// The squash of a term becomes the term, where the derivation leads from its square to it.
    pub fn sq_fix(self, square: Deriv<'f>) -> Result<Deriv<'f>, NoMemory>
        requires facts { square.facts ≡ self.facts.now }
        requires outs { square.outs ≡ self.outs }
        requires square { square.from ≡ square.to ⊗ square.to }
        ensures { IfOk result (IsOneStep self.entry.facts.now self.entry.outs (sq square.entry.to) (fix_step square.entry) square.entry.to) }
    {
        let (x, inner) = square.into_end();
        let x = Kept::new(x);
        let from = Kept::new(U::Squash(Boxed::new(self.alloc, x.get().copy(self.alloc)?)?));
        let to = Kept::new(x.get().copy(self.alloc)?);
        let args = vec![in self.alloc; Arg::Term(x.into_inner())]?;
        let step = Step {
            path: Path::new(self.alloc),
            forward: true,
            rule: Rule::SqFix,
            args: List::from_vec(args),
            inner,
        };
        Deriv::one_step(self.alloc, self.facts, self.outs, from, step, to)
    }

    /// Beside the squash of a term, the squash of a sum with that term is no more.
    pub fn sq_part(self, x: U, y: U) -> Result<Deriv<'f>, NoMemory>
        requires x { IsKnown 0 self.outs x }
        requires y { IsKnown 0 self.outs y }
        ensures { IfOk result (IsMove self.entry rule.SqPart (arg.Term x ∷ arg.Term y ∷ []) (sq x ⊗ sq (x ⊕ y)) (sq x)) }
    {
        let args = vec![in self.alloc; Arg::Term(x), Arg::Term(y)]?;
        self.at_root(Rule::SqPart, List::from_vec(args))
    }

    /// The squash of an equality becomes the equality.
    pub fn sq_eq(self, a: Val, b: Val) -> Result<Deriv<'f>, NoMemory>
        requires a { IsKnownValue self.outs a }
        requires b { IsKnownValue self.outs b }
        ensures { IfOk result (IsMove self.entry rule.SqEq (arg.Value a ∷ arg.Value b ∷ []) (sq (a ≐ b)) (a ≐ b)) }
    {
        let args = vec![in self.alloc; Arg::Value(a), Arg::Value(b)]?;
        self.at_root(Rule::SqEq, List::from_vec(args))
    }

    /// The squash of a predicate becomes the predicate.
    pub fn sq_pred(self, predicate: u32, s: List<Val>) -> Result<Deriv<'f>, NoMemory>
        requires { AreKnownValues self.outs s }
        ensures { IfOk result (IsMove self.entry rule.SqPred (arg.Num predicate ∷ arg.Values s ∷ []) (sq (P predicate s)) (P predicate s)) }
    {
        let args = vec![in self.alloc; Arg::Num(predicate), Arg::Values(s)]?;
        self.at_root(Rule::SqPred, List::from_vec(args))
    }
}
