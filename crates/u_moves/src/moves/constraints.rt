//! Keys and foreign keys.
ghost use Rattle.std.specs.Prelude.{◌≡◌, ◌∷◌, [], IfOk, None, slice_get};
ghost use Rattle.u_terms.specs.Products.{product_of};
ghost use Rattle.u_terms.specs.declared.facts.Fkey.{Fkey};
ghost use Rattle.u_rules.specs.Terms.{◌⊗◌, R, equal_columns, equal_rows, key_columns, referenced};
ghost use Rattle.u_rules.specs.Rows.{key_fault};
ghost use Rattle.u_rules.specs.declared.rule.Arg.TheVariants as arg;
ghost use Rattle.u_rules.specs.declared.rule.Rule.TheVariants as rule;
ghost use Rattle.u_moves.specs.Moving.{AreKnownValues, IsMove, Refers};

use crate::NoMemory;
use crate::deriv::Deriv;
use crate::moves::Moves;
use u_rules::{Arg, Rule};
use u_terms::{List, Val};

#[tactic(auto, using(crate::proofs::steps::Rooted::applies))]
impl<'f> Moves<'f> {
    /// Two rows of a table that agree on a key become one, and the equalities of all their columns.
    pub fn key(
        self,
        table: u32,
        key: u32,
        s: List<Val>,
        r: List<Val>,
    ) -> Result<Deriv<'f>, NoMemory>
        requires s { AreKnownValues self.outs s }
        requires r { AreKnownValues self.outs r }
        requires fits { key_fault self.facts.now table key s r ≡ None }
        ensures { let columns = key_columns self.entry.facts.now table key in IfOk result (IsMove self.entry rule.Key (arg.Num table ∷ arg.Num key ∷ arg.Values s ∷ arg.Values r ∷ []) (product_of (R table s ∷ (R table r ∷ equal_columns s columns r columns))) (product_of (R table s ∷ equal_rows s r))) }
    {
        let args = vec![in self.alloc;
            Arg::Num(table),
            Arg::Num(key),
            Arg::Values(s),
            Arg::Values(r),
        ]?;
        self.at_root(Rule::Key, List::from_vec(args))
    }

    /// Beside a row of the referencing table, there is the one that it refers to.
    pub fn fkey(self, fkey: u32, s: List<Val>) -> Result<Deriv<'f>, NoMemory>
        requires s { AreKnownValues self.outs s }
        requires refers { Refers self.facts.now fkey s }
        ensures { IfOk result (λ d. (f : Fkey) → slice_get self.entry.facts.now.fkeys fkey ≡ Some f → IsMove self.entry rule.Fkey (arg.Num fkey ∷ arg.Values s ∷ []) (R f.from s) (R f.from s ⊗ referenced self.entry.facts.now f s) d) }
    {
        let args = vec![in self.alloc; Arg::Num(fkey), Arg::Values(s)]?;
        self.at_root(Rule::Fkey, List::from_vec(args))
    }
}
