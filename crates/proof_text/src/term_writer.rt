//! Terms and values, written.
ghost use Rattle.std.specs.Prelude.{◌<◌, ◌≤◌, ◌^◌, ◌++◌, decimal, length};
ghost use Rattle.data_model.specs.Lists.{Each};
ghost use Rattle.u_rules.specs.declared.rule.Arg.TheVariants.{Values};
ghost use Rattle.u_deriv.specs.StepText.{argument_text, term_text, value_text};
ghost use Rattle.proof_text.specs.Sent.{Writes};
ghost use Rattle.proof_text.specs.Words.{HasWords, ValueHasWords};

use crate::pending::{Pending, put, put_number};
use u_terms::{U, Val};
use udp_io::Sink;

/// Writes a letter and a number.
pub fn put_numbered<K: Sink>(out: &mut K, pending: &mut Pending, letter: &str, number: u32)
    requires { length letter.now ≤ 40 }
    ensures writes { Writes (K.written out.old) (K.written out.new) (K.faults out.old) (K.faults out.new) pending.old
        (letter.now ++ decimal number) pending.new }
    ensures word { number < 2 ^ 32 }
{
    put(out, pending, letter);
    put_number(out, pending, number);
}

/// Writes a term.
#[cycle(put_term)]
pub fn put_term<K: Sink>(out: &mut K, pending: &mut Pending, term: &U)
    ensures writes { Writes (K.written out.old) (K.written out.new) (K.faults out.old) (K.faults out.new) pending.old
        (term_text term.now) pending.new }
    ensures words { HasWords term.now }
{
    match term {
        U::Zero => put(out, pending, "0"),
        U::One => put(out, pending, "1"),
        U::Add(left, right) => {
            put_between(out, pending, "+(", left.get(), ",");
            put_between(out, pending, "", right.get(), ")")
        }
        U::Mul(left, right) => {
            put_between(out, pending, "*(", left.get(), ",");
            put_between(out, pending, "", right.get(), ")")
        }
        U::Squash(part) => put_between(out, pending, "#(", part.get(), ")"),
        U::Not(part) => put_between(out, pending, "!(", part.get(), ")"),
        U::Sum(body) => put_between(out, pending, "S(", body.get(), ")"),
        U::Rel(table, values) => {
            put_numbered(out, pending, "R", *table);
            put_values(out, pending, values.as_slice())
        }
        U::Eq(left, right) => {
            put(out, pending, "=(");
            put_value(out, pending, left);
            put(out, pending, ",");
            put_value(out, pending, right);
            put(out, pending, ")")
        }
        U::Pred(symbol, values) => {
            put_numbered(out, pending, "P", *symbol);
            put_values(out, pending, values.as_slice())
        }
    }
}

// A term between these.
#[cycle(put_term)]
fn put_between<K: Sink>(out: &mut K, pending: &mut Pending, opening: &str, part: &U, end: &str)
    requires opening { length opening.now ≤ 40 }
    requires end { length end.now ≤ 40 }
    ensures writes { Writes (K.written out.old) (K.written out.new) (K.faults out.old) (K.faults out.new) pending.old
        (opening.now ++ (term_text part.now ++ end.now)) pending.new }
    ensures words { HasWords part.now }
{
    put(out, pending, opening);
    put_term(out, pending, part);
    put(out, pending, end);
}

/// Writes values in parentheses.
#[cycle(put_term)]
pub fn put_values<K: Sink>(out: &mut K, pending: &mut Pending, values: &[Val])
    ensures writes { Writes (K.written out.old) (K.written out.new) (K.faults out.old) (K.faults out.new) pending.old
        (argument_text (Values values.now)) pending.new }
    ensures words { Each ValueHasWords values.now }
{
    if values.is_empty() {
        return put(out, pending, "()");
    }
    let mut opening = "(";
    for value in values {
        put(out, pending, opening);
        put_value(out, pending, value);
        opening = ",";
    }
    put(out, pending, ")")
}

/// Writes a value.
#[cycle(put_term)]
pub fn put_value<K: Sink>(out: &mut K, pending: &mut Pending, value: &Val)
    ensures writes { Writes (K.written out.old) (K.written out.new) (K.faults out.old) (K.faults out.new) pending.old
        (value_text value.now) pending.new }
    ensures words { ValueHasWords value.now }
{
    match value {
        Val::Bound(place) => put_numbered(out, pending, "b", *place),
        Val::Free(name) => put_numbered(out, pending, "f", *name),
        Val::Lit(literal) => put_numbered(out, pending, "c", *literal),
        Val::Fun(symbol, values) => {
            put_numbered(out, pending, "F", *symbol);
            put_values(out, pending, values.as_slice())
        }
        Val::Agg(aggregate, body) => {
            put_numbered(out, pending, "G", *aggregate);
            put_between(out, pending, "(", body.get(), ")")
        }
    }
}
