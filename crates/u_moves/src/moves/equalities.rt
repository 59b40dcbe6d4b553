//! Equalities.
ghost use Rattle.std.specs.Prelude.{◌∷◌, [], IfOk};
ghost use Rattle.u_rules.specs.Terms.{◌⊗◌, ◌⊕◌, ◌≐◌, I, neg, put};
ghost use Rattle.u_rules.specs.declared.rule.Arg.TheVariants as arg;
ghost use Rattle.u_rules.specs.declared.rule.Rule.TheVariants as rule;
ghost use Rattle.u_moves.specs.Derivations.{IsKnown};
ghost use Rattle.u_moves.specs.Moving.{IsKnownValue, IsMove};

use crate::NoMemory;
use crate::deriv::Deriv;
use crate::moves::Moves;
use u_rules::{Arg, Rule};
use u_terms::{List, U, Val};

#[tactic(auto, using(crate::proofs::steps::Rooted::applies))]
impl<'f> Moves<'f> {
    /// The equality of a value with itself becomes 1.
    pub fn eq_refl(self, a: Val) -> Result<Deriv<'f>, NoMemory>
        requires { IsKnownValue self.outs a }
        ensures { IfOk result (IsMove self.entry rule.EqRefl (arg.Value a ∷ []) (a ≐ a) I) }
    {
        let args = vec![in self.alloc; Arg::Value(a)]?;
        self.at_root(Rule::EqRefl, List::from_vec(args))
    }

    /// The sides of an equality change places.
    pub fn eq_sym(self, a: Val, b: Val) -> Result<Deriv<'f>, NoMemory>
        requires a { IsKnownValue self.outs a }
        requires b { IsKnownValue self.outs b }
        ensures { IfOk result (IsMove self.entry rule.EqSym (arg.Value a ∷ arg.Value b ∷ []) (a ≐ b) (b ≐ a)) }
    {
        let args = vec![in self.alloc; Arg::Value(a), Arg::Value(b)]?;
        self.at_root(Rule::EqSym, List::from_vec(args))
    }

    /// Beside an equality, the one value becomes the other.
    pub fn eq_subst(self, a: Val, b: Val, f: U) -> Result<Deriv<'f>, NoMemory>
        requires a { IsKnownValue self.outs a }
        requires b { IsKnownValue self.outs b }
        requires f { IsKnown 1 self.outs f }
        ensures { IfOk result (IsMove self.entry rule.EqSubst (arg.Value a ∷ arg.Value b ∷ arg.Body f ∷ []) ((a ≐ b) ⊗ put a f) ((a ≐ b) ⊗ put b f)) }
    {
        let args = vec![in self.alloc; Arg::Value(a), Arg::Value(b), Arg::Body(f)]?;
        self.at_root(Rule::EqSubst, List::from_vec(args))
    }

    /// An equality and its negation together become 1.
    pub fn eq_split(self, a: Val, b: Val) -> Result<Deriv<'f>, NoMemory>
        requires a { IsKnownValue self.outs a }
        requires b { IsKnownValue self.outs b }
        ensures { IfOk result (IsMove self.entry rule.EqSplit (arg.Value a ∷ arg.Value b ∷ []) ((a ≐ b) ⊕ neg (a ≐ b)) I) }
    {
        let args = vec![in self.alloc; Arg::Value(a), Arg::Value(b)]?;
        self.at_root(Rule::EqSplit, List::from_vec(args))
    }
}
