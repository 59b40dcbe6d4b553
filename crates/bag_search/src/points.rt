//! Which points of a shape are equal.
ghost use Rattle.std.specs.Prelude.{◌≡◌, IfOk};
ghost use Rattle.shapes.specs.Tests as shapes;
ghost use Rattle.bag_search.specs.Merges as spec;
ghost use Rattle.bag_search.specs.Merges.{IsSide};

use shapes::{Point, Shape};
use std::alloc::{AllocError, Global};

/// A point that stood for a class, and the point that has stood for it since that class was joined to another.
#[derive(Clone, Copy, Drop)]
pub struct Merge {
    pub from: Point,
    pub to: Point,
}

/// A shape, and the merges that its equalities make, in order.
#[derive(Clone, Copy, Drop)]
pub struct Side<'a> {
    pub shape: &'a Shape,
    pub merges: &'a [Merge],
}

fn same(p: Point, q: Point) -> bool
    ensures { result ≡ shapes.same_point p q }
{
    match (p, q) {
        (
            Point::Column {
                entry: e,
                column: c,
            },
            Point::Column {
                entry: f,
                column: d,
            },
        ) => e == f && c == d,
        (Point::Literal(a), Point::Literal(b)) => a == b,
        _ => false,
    }
}

/// The point that stands for the class of a point.
fn representative(merges: &[Merge], p: Point) -> Point
    ensures { result ≡ spec.representative merges.now p }
{
    let mut at = p;
    for merge in merges {
        if same(at, merge.from) {
            at = merge.to;
        }
    }
    at
}

/// The merges that equalities make, those of the last one first.
pub fn merges_of(alloc: Global, equalities: &[(Point, Point)]) -> Result<Vec<Merge>, AllocError>
    ensures { IfOk result (λ made. made.items ≡ spec.merges_of equalities.now) }
{
    let count = equalities.len();
    let mut made = Vec::with_capacity(alloc, count)?;
    for i in 0..count {
        let (left, right) = equalities[count - 1 - i];
        let from = representative(made.as_slice(), right);
        let to = representative(made.as_slice(), left);
        made.push(Merge { from, to })?;
    }
    Ok(made)
}

/// Whether two points of a shape are equal.
#[tactic(auto, using(crate::proofs::MergeLaws::laws))]
pub fn equal(side: &Side, p: Point, q: Point) -> bool
    requires { IsSide side.now }
    ensures { result ≡ shapes.equal side.now.shape.now p q }
{
    same(
        representative(side.merges, p),
        representative(side.merges, q),
    )
}
