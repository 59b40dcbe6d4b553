//! Nodes and depth of the term that a side is, without the term.
ghost use Rattle.std.specs.Prelude.{◌≡◌, slice_get};
ghost use Rattle.u_rules.specs.Measures.{flat, measure_of};
ghost use Rattle.u_rules.specs.Templates.{denote, term_of, value_of};
ghost use Rattle.u_rules.specs.Terms as terms;

use crate::forms::Side;
use crate::holes::{measured_value, term, value, values};
use crate::measure::{LEAF, Measure, of, of_list, put};
use crate::rule::Arg;
use u_terms::{U, Val};

/// The nodes and depths of the two sides of a rule. A number that is larger than the last one of its type is that one.
#[derive(Clone, Copy, Debug, PartialEq, Eq)]
pub struct Sizes {
    pub left_nodes: u64,
    pub left_depth: u64,
    pub right_nodes: u64,
    pub right_depth: u64,
}

/// Those of a rule without sides.
pub const NONE: Sizes = Sizes {
    left_nodes: 0,
    left_depth: 0,
    right_nodes: 0,
    right_depth: 0,
};

pub fn both(left: Measure, right: Measure) -> Sizes
    ensures { result ≡ flat left right }
{
    Sizes {
        left_nodes: left.nodes,
        left_depth: left.depth,
        right_nodes: right.nodes,
        right_depth: right.depth,
    }
}

#[tactic(auto, using(crate::proofs::terms::Measured::measures_at))]
pub fn measure_side(side: &Side<'_>, args: &[Arg]) -> Measure
    ensures { result ≡ measure_of (denote args.now side.now) }
{
    match side {
        Side::Zero | Side::One => LEAF,
        Side::Add(a, b) | Side::Mul(a, b) => measure_side(a, args).with(measure_side(b, args)),
        Side::Squash(a) | Side::Not(a) | Side::Sum(a) => measure_side(a, args).below(),
        Side::Hole(i) => hole(args, *i),
        Side::Put(i, j) => put_hole(args, *i, *j),
        Side::Eq(i, j) => measured_value(args, *i).with(measured_value(args, *j)),
        Side::PlaceEq(j) => LEAF.with(measured_value(args, *j)),
        Side::Pred(_, j) => of_list(values(args, *j)).below(),
    }
}

#[tactic(auto, using(crate::proofs::terms::Measured::measures_at))]
fn hole(args: &[Arg], i: usize) -> Measure
    ensures { result ≡ measure_of (term_of (slice_get args.now i)) }
{
    match term(args, i) {
        Some(x) => of(x),
        None => LEAF,
    }
}

fn put_hole(args: &[Arg], i: usize, j: usize) -> Measure
    ensures { result ≡ measure_of (terms.put (value_of (slice_get args.now j)) (term_of (slice_get args.now i))) }
{
    match (term(args, i), value(args, j)) {
        (Some(f), Some(x)) => put(f, x),
        (Some(f), None) => put(f, &Val::Lit(0)),
        (None, Some(x)) => put(&U::Zero, x),
        (None, None) => put(&U::Zero, &Val::Lit(0)),
    }
}
