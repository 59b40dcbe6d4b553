//! Values as keys of tables that are sought by hash.
ghost use Rattle.std.specs.Prelude.{◌≡◌, [], ◌∷◌, fold};
ghost use Rattle.u_rules.specs.Codes.{code, list_code, value_code};
ghost use Rattle.u_equal.specs.Keys.{written};

use std::hash::{Hash, Hasher};
use std::marker::Model;
use u_terms::{U, Val, same_value};

/// A value that is lent, as a key.
#[derive(Drop)]
pub struct Key<'a> {
    pub value: &'a Val,
}

impl<'a> Model for Key<'a> {
    ghost use Rattle.std.specs.Coded.{codes};
    ghost use Rattle.u_terms.specs.Syntax.{Val as TheVal};
    ghost use Rattle.u_terms.specs.contracts.term.Val as val_type;

    ghost Value = { TheVal };

    ghost coded = { Prim.hlevel (codes, val_type.the_row.coded) };

    ghost view = { λ key. key.value.now };
}

impl<'a> PartialEq for Key<'a> {
    ghost use Rattle.std.specs.Cmp.{on_per, partial_equiv_from_equiv};
    ghost use Rattle.std.specs.Cmp.Lexicographic.{nat_list_eq_equiv};
    ghost use Rattle.u_rules.specs.Codes.{value_code};
    ghost use Rattle.u_equal.specs.Keys.{same_code};

    ghost eq = { same_code };

    ghost laws = { on_per value_code (partial_equiv_from_equiv nat_list_eq_equiv) };

    fn eq(&self, other: &Key<'a>) -> bool {
        same_value(self.value, other.value)
    }
}

impl<'a> Eq for Key<'a> {
    ghost use Rattle.std.specs.Cmp.{on_equiv};
    ghost use Rattle.std.specs.Cmp.Lexicographic.{nat_list_eq_equiv};
    ghost use Rattle.u_rules.specs.Codes.{value_code};

    ghost laws = { on_equiv value_code nat_list_eq_equiv };
}

impl<'a> Hash for Key<'a> {
    ghost use Rattle.u_equal.specs.Keys.{key_writes, key_writes-alike};

    ghost hash_input = { key_writes };

    ghost respects_eq = { key_writes-alike };

    fn hash<H: Hasher>(&self, state: &mut H) {
        feed_value(self.value, state);
    }
}

// Feeds the code of a value.
#[cycle(feed)]
#[tactic(auto, using(crate::proofs::products::Fed::feeding))]
fn feed_value<H: Hasher>(value: &Val, state: &mut H)
    ensures { state.new ≡ fold H.write state.old (written (value_code value.now)) }
{
    match value {
        Val::Bound(place) => feed_two(0, *place, state),
        Val::Free(name) => feed_two(1, *name, state),
        Val::Lit(literal) => feed_two(2, *literal, state),
        Val::Fun(symbol, args) => {
            feed_two(3, *symbol, state);
            feed_list(args.as_slice(), state);
        }
        Val::Agg(aggregate, body) => {
            feed_two(4, *aggregate, state);
            feed_term(body.get(), state);
        }
    }
}

#[tactic(auto, using(crate::proofs::products::Fed::feeding))]
fn feed_two<H: Hasher>(kind: u32, number: u32, state: &mut H)
    ensures { state.new ≡ fold H.write state.old (written (kind ∷ (number ∷ []))) }
{
    state.write_u32(kind);
    state.write_u32(number);
}

#[cycle(feed)]
#[tactic(auto, using(crate::proofs::products::Fed::feeding))]
fn feed_term<H: Hasher>(term: &U, state: &mut H)
    ensures { state.new ≡ fold H.write state.old (written (code term.now)) }
{
    match term {
        U::Zero => state.write_u32(0),
        U::One => state.write_u32(1),
        U::Add(a, b) => {
            state.write_u32(2);
            feed_term(a.get(), state);
            feed_term(b.get(), state);
        }
        U::Mul(a, b) => {
            state.write_u32(3);
            feed_term(a.get(), state);
            feed_term(b.get(), state);
        }
        U::Squash(a) => {
            state.write_u32(4);
            feed_term(a.get(), state);
        }
        U::Not(a) => {
            state.write_u32(5);
            feed_term(a.get(), state);
        }
        U::Sum(body) => {
            state.write_u32(6);
            feed_term(body.get(), state);
        }
        U::Rel(table, args) => {
            feed_two(7, *table, state);
            feed_list(args.as_slice(), state);
        }
        U::Eq(a, b) => {
            state.write_u32(8);
            feed_value(a, state);
            feed_value(b, state);
        }
        U::Pred(symbol, args) => {
            feed_two(9, *symbol, state);
            feed_list(args.as_slice(), state);
        }
    }
}

#[cycle(feed)]
#[tactic(auto, using(crate::proofs::products::Fed::feeding))]
fn feed_list<H: Hasher>(values: &[Val], state: &mut H)
    ensures { state.new ≡ fold H.write state.old (written (list_code values.now)) }
{
    for value in values {
        state.write_u32(1);
        feed_value(value, state);
    }
    state.write_u32(0);
}
