//! The arguments that the holes of a side name. In the place of one of another kind stands a value that is always there.
ghost use Rattle.std.specs.Prelude.{◌≡◌, ◌↔◌, ◌<◌, ◌^◌, IfOk, IsTrue, MatchOption, slice_get};
ghost use Rattle.u_terms.specs.declared.term.Val.TheVariants as v;
ghost use Rattle.u_rules.specs.Measures.{value_measure};
ghost use Rattle.u_rules.specs.Templates as templates;
ghost use Rattle.u_rules.specs.Templates.{fits, num_of, term_of, value_of, values_of};
ghost use Rattle.u_rules.specs.Terms.{O};

use crate::forms::Kind;
use crate::measure::{LEAF, Measure, of_value};
use crate::rule::Arg;
use std::alloc::{AllocError, Global};
use u_terms::{U, Val, same_value};

/// Whether the arguments are of these kinds.
#[cycle(fit)]
pub fn fit(kinds: &[Kind], args: &[Arg]) -> bool
    ensures { result ≡ fits kinds.now args.now }
{
    match kinds {
        [] => args.is_empty(),
        [kind, kinds @ ..] => match args {
            [] => false,
            [arg, args @ ..] => is_of(*kind, arg) && fit(kinds, args),
        },
    }
}

fn is_of(kind: Kind, arg: &Arg) -> bool
    ensures { result ≡ templates.is_of kind arg.now }
{
    match (kind, arg) {
        (Kind::Term, Arg::Term(_))
        | (Kind::Body, Arg::Body(_))
        | (Kind::Value, Arg::Value(_))
        | (Kind::Values, Arg::Values(_))
        | (Kind::Num, Arg::Num(_)) => true,
        _ => false,
    }
}

pub fn term<'a>(args: &'a [Arg], i: usize) -> Option<&'a U>
    ensures { MatchOption result (term_of (slice_get args.now i) ≡ O) (λ x. x.now ≡ term_of (slice_get args.now i)) }
{
    match args.get(i) {
        Some(Arg::Term(x)) | Some(Arg::Body(x)) => Some(x),
        _ => None,
    }
}

pub fn value<'a>(args: &'a [Arg], i: usize) -> Option<&'a Val>
    ensures { MatchOption result (value_of (slice_get args.now i) ≡ v.Lit 0) (λ x. x.now ≡ value_of (slice_get args.now i)) }
{
    match args.get(i) {
        Some(Arg::Value(x)) => Some(x),
        _ => None,
    }
}

pub fn values<'a>(args: &'a [Arg], i: usize) -> &'a [Val]
    ensures { result.now ≡ values_of (slice_get args.now i) }
{
    match args.get(i) {
        Some(Arg::Values(s)) => s.as_slice(),
        _ => &[],
    }
}

pub fn num(args: &[Arg], i: usize) -> u32
    ensures { result ≡ num_of (slice_get args.now i) }
{
    match args.get(i) {
        Some(Arg::Num(m)) => *m,
        _ => 0,
    }
}

pub fn copied_value(alloc: Global, args: &[Arg], i: usize) -> Result<Val, AllocError>
    ensures { IfOk result (λ x. x ≡ value_of (slice_get args.now i)) }
{
    match value(args, i) {
        Some(x) => x.copy(alloc),
        None => Ok(Val::Lit(0)),
    }
}

#[tactic(auto, using(crate::proofs::terms::Measured::measures_at))]
pub fn measured_value(args: &[Arg], i: usize) -> Measure
    ensures { result ≡ value_measure (value_of (slice_get args.now i)) }
{
    match value(args, i) {
        Some(x) => of_value(x),
        None => LEAF,
    }
}
