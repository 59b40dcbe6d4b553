//! Whether a list of entries carries the outputs and the marks of one shape to those of another.
ghost use Rattle.std.specs.Prelude.{◌≡◌, ◌<◌, ◌^◌, IfOk, length, map};
ghost use Rattle.std.specs.List.{list_any};
ghost use Rattle.shapes.specs.Shapes as plain;
ghost use Rattle.shapes.specs.Tests as shapes;
ghost use Rattle.bag_search.specs.Merges.{IsSide};

use crate::points::{Side, equal};
use shapes::{Kind, Mark, Point, Shape};
use std::alloc::{AllocError, Global};

/// The same column of the entry that the list has for the point's entry.
#[tactic(auto, using(crate::proofs::Columns::entries))]
fn carried(list: &[u32], p: Point) -> Point
    ensures { result ≡ shapes.carried list.now p }
{
    match p {
        Point::Column { entry, column } => match list.get(entry as usize) {
            Some(to) => Point::Column { entry: *to, column },
            None => Point::Column { entry: 0, column },
        },
        Point::Literal(a) => Point::Literal(a),
    }
}

/// Whether points are carried to points equal to these, one by one.
#[tactic(auto, using(crate::proofs::Carrying::one_by_one))]
fn each_carried(t: &Side, list: &[u32], ps: &[Point], qs: &[Point]) -> bool
    requires { IsSide t.now }
    ensures { result ≡ shapes.both (λ p q. shapes.equal t.now.shape.now (shapes.carried list.now p) q) ps.now qs.now }
{
    if ps.len() != qs.len() {
        return false;
    }
    for (p, q) in ps.iter().zip(qs) {
        if !equal(t, carried(list, *p), *q) {
            return false;
        }
    }
    true
}

#[tactic(auto, using(crate::proofs::Carrying::carrying))]
fn points_carried(t: &Side, list: &[u32], ps: &[Point], qs: &[Point]) -> bool
    requires { IsSide t.now }
    ensures { result ≡ shapes.points_equal t.now.shape.now (map (shapes.carried list.now) ps.now) qs.now }
{
    each_carried(t, list, ps, qs)
}

/// The same of two points the other way round.
#[tactic(auto, using(crate::proofs::Carrying::carrying))]
fn turned_carried(t: &Side, list: &[u32], ps: &[Point], qs: &[Point]) -> bool
    requires { IsSide t.now }
    ensures { result ≡ shapes.points_equal t.now.shape.now (plain.turned (map (shapes.carried list.now) ps.now)) qs.now }
{
    match ps {
        [p, q] => points_carried(t, list, &[*q, *p], qs),
        _ => points_carried(t, list, ps, qs),
    }
}

fn same_kind(a: Kind, b: Kind) -> bool
    ensures { result ≡ shapes.same_kind a b }
{
    match (a, b) {
        (Kind::Holds(p), Kind::Holds(q)) => p == q,
        (Kind::Fails(p), Kind::Fails(q)) => p == q,
        (Kind::Differ, Kind::Differ) => true,
        _ => false,
    }
}

fn in_some_order(t: &Side, list: &[u32], kind: Kind, ps: &[Point], qs: &[Point]) -> bool
    requires { IsSide t.now }
    ensures { result ≡ shapes.either_order t.now.shape.now kind (map (shapes.carried list.now) ps.now) qs.now }
{
    match kind {
        Kind::Differ => points_carried(t, list, ps, qs) || turned_carried(t, list, ps, qs),
        Kind::Holds(_) | Kind::Fails(_) => points_carried(t, list, ps, qs),
    }
}

fn is_carried_to(t: &Side, list: &[u32], mark: &Mark, other: &Mark) -> bool
    requires { IsSide t.now }
    ensures { result ≡ shapes.mark_of t.now.shape.now (record { kind = mark.now.kind; points = map (shapes.carried list.now) mark.now.points }) other.now }
{
    same_kind(mark.kind, other.kind)
        && in_some_order(
            t,
            list,
            other.kind,
            mark.points.as_slice(),
            other.points.as_slice(),
        )
}

/// Whether a mark is carried to one of the other shape's.
fn is_among(t: &Side, list: &[u32], mark: &Mark) -> bool
    requires { IsSide t.now }
    ensures { result ≡ list_any (shapes.mark_of t.now.shape.now (record { kind = mark.now.kind; points = map (shapes.carried list.now) mark.now.points })) t.now.shape.now.marks }
{
    t.shape
        .marks
        .as_slice()
        .iter()
        .any(|other| is_carried_to(t, list, mark, other))
}

/// Whether each mark is carried to one of the other shape's.
pub fn marks_carried(s: &Shape, t: &Side, list: &[u32]) -> bool
    requires { IsSide t.now }
    ensures { result ≡ shapes.marks_carried s.now t.now.shape.now list.now }
{
    s.marks
        .as_slice()
        .iter()
        .all(|mark| is_among(t, list, mark))
}

/// Whether the outputs are carried to those of the other shape.
pub fn outputs_carried(s: &Shape, t: &Side, list: &[u32]) -> bool
    requires { IsSide t.now }
    ensures { result ≡ shapes.outputs_carried s.now t.now.shape.now list.now }
{
    each_carried(t, list, s.outputs.as_slice(), t.shape.outputs.as_slice())
}

/// The place of an entry in a list, 0 where it is not there.
fn place_of(list: &[u32], x: u32) -> u32
    requires { length list.now < 2 ^ 32 }
    ensures { result ≡ shapes.place_of x 0 list.now }
{
    let mut place: u32 = 0;
    for y in list {
        if x == *y {
            return place;
        }
        place += 1;
    }
    0
}

/// The inverse of a list.
pub fn inverse_of(alloc: Global, list: &[u32]) -> Result<Vec<u32>, AllocError>
    requires { length list.now < 2 ^ 32 }
    ensures { IfOk result (λ back. back.items ≡ shapes.back_from 0 (length list.now) list.now) }
{
    let mut back = Vec::with_capacity(alloc, list.len())?;
    for x in 0..list.len() as u32 {
        back.push(place_of(list, x))?;
    }
    Ok(back)
}
