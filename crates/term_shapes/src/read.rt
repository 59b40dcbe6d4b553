//! Reads the shape of a term.
ghost use Rattle.std.specs.Prelude.{◌≡◌, ◌+◌, ◌<◌, ◌^◌, IfOk, Some, length, replicate, slice_get};
ghost use Rattle.std.specs.List.{list_all};
ghost use Rattle.term_shapes.specs.Factors.{atom, factors, sum_count, under_sums, negated};
ghost use Rattle.term_shapes.specs.TermShape as spec;
ghost use Rattle.term_shapes.specs.Walks.{Went, atoms};

use plain_data::List;
use shapes::{Entry, Kind, Mark, Point, Shape};
use std::alloc::{AllocError, Global};
use u_terms::{NoMemory, U, Val};

/// What the factors of a product say: equalities, marks, and the outputs of the names below a bound, as far as they are known.
#[derive(Drop)]
pub struct Said {
    pub equalities: List<(Point, Point)>,
    pub marks: List<Mark>,
    pub outputs: List<Option<Point>>,
}

/// The point of a value.
fn value_point(points: &[Option<Point>], value: &Val) -> Option<Point>
    ensures { result ≡ spec.value_point points.now value.now }
{
    match value {
        Val::Bound(place) => match points.get(*place as usize) {
            Some(point) => *point,
            None => None,
        },
        Val::Lit(literal) => Some(Point::Literal(*literal)),
        _ => None,
    }
}

/// The points of values, where each has one.
#[tactic(auto, using(crate::proofs::Reading::lists))]
fn value_points(
    alloc: Global,
    points: &[Option<Point>],
    values: &[Val],
) -> Result<Option<List<Point>>, NoMemory>
    ensures { IfOk result (λ found. found ≡ spec.value_points points.now values.now) }
{
    let mut found = Vec::with_capacity(alloc, values.len())?;
    for value in values {
        match value_point(points, value) {
            Some(point) => found.push(point)?,
            None => return Ok(None),
        }
    }
    Ok(Some(List::from_vec(found)))
}

/// What is known of a place.
fn place_at(points: &[Option<Point>], place: u32) -> Option<Option<Point>>
    ensures { result ≡ slice_get points.now place }
{
    match points.get(place as usize) {
        Some(point) => Some(*point),
        None => None,
    }
}

/// Gives a place its point. Says whether the place is there and had none.
#[tactic(auto, using(crate::proofs::Reading::places))]
fn give_point(points: &mut [Option<Point>], place: u32, point: Point) -> bool
    ensures { Went result (spec.pointed points.old place point) points.new }
{
    match place_at(points, place) {
        Some(None) => {
            points[place as usize] = Some(point);
            true
        }
        Some(Some(_)) | None => false,
    }
}

/// Gives the values of an entry their points. Says whether each is a summed place that had none.
fn place_values(entry: u32, values: &[Val], points: &mut [Option<Point>]) -> bool
    requires { length values.now < 2 ^ 32 }
    ensures { Went result (spec.placed entry 0 values.now points.old) points.new }
{
    let mut column: u32 = 0;
    for value in values {
        match value {
            Val::Bound(place) => {
                if !give_point(points, *place, Point::Column { entry, column }) {
                    return false;
                }
            }
            Val::Free(_) | Val::Lit(_) | Val::Fun(_, _) | Val::Agg(_, _) => return false,
        }
        column += 1;
    }
    true
}

fn add_atom(
    table: u32,
    values: &[Val],
    entries: &mut Vec<Entry>,
    points: &mut [Option<Point>],
) -> Result<bool, NoMemory>
    ensures { IfOk result (λ done. Went done (spec.with_atom (atoms entries.old.items points.old) (atom table values.now)) (atoms entries.new.items points.new)) }
{
    match (u32::try_from(entries.len()), u32::try_from(values.len())) {
        (Ok(entry), Ok(columns)) => {
            if !place_values(entry, values, points) {
                return Ok(false);
            }
            entries.push(Entry { table, columns })?;
            Ok(true)
        }
        _ => Err(AllocError),
    }
}

/// The atoms among the factors of a product. Says whether their values are summed places, each once.
#[tactic(auto, using(crate::proofs::Reading::walks))]
fn place_atoms(
    u: &U,
    entries: &mut Vec<Entry>,
    points: &mut [Option<Point>],
) -> Result<bool, NoMemory>
    ensures { IfOk result (λ done. Went done (spec.folded spec.with_atom (atoms entries.old.items points.old) (factors u.now)) (atoms entries.new.items points.new)) }
{
    match u {
        U::Mul(a, b) => {
            if !place_atoms(a.get(), entries, points)? {
                return Ok(false);
            }
            place_atoms(b.get(), entries, points)
        }
        U::Rel(table, args) => add_atom(*table, args.as_slice(), entries, points),
        U::Zero | U::One | U::Add(_, _) | U::Squash(_) | U::Not(_) | U::Sum(_) => Ok(true),
        U::Eq(_, _) | U::Pred(_, _) => Ok(true),
    }
}

fn all_placed(points: &[Option<Point>]) -> bool
    ensures { result ≡ list_all spec.has_point points.now }
{
    points.iter().all(|point| point.is_some())
}

/// Gives a name its output. Says whether the value is a point, and the name one that had no output.
fn add_output(points: &[Option<Point>], name: u32, value: &Val, said: &mut Said) -> bool
    ensures { Went result (spec.said_output points.now said.old name value.now) said.new }
{
    match value_point(points, value) {
        Some(point) => give_point(said.outputs.as_mut_slice(), name, point),
        None => false,
    }
}

#[tactic(auto, using(crate::proofs::Reading::walks))]
fn add_equality(
    points: &[Option<Point>],
    a: &Val,
    b: &Val,
    said: &mut Said,
) -> Result<bool, NoMemory>
    ensures { IfOk result (λ done. Went done (spec.said_equality points.now said.old a.now b.now) said.new) }
{
    match (a, b) {
        (Val::Free(name), _) => Ok(add_output(points, *name, b, said)),
        (_, Val::Free(name)) => Ok(add_output(points, *name, a, said)),
        _ => match (value_point(points, a), value_point(points, b)) {
            (Some(p), Some(q)) => {
                said.equalities.push((p, q))?;
                Ok(true)
            }
            _ => Ok(false),
        },
    }
}

fn add_difference(
    alloc: Global,
    points: &[Option<Point>],
    a: &Val,
    b: &Val,
    said: &mut Said,
) -> Result<bool, NoMemory>
    ensures { IfOk result (λ done. Went done (spec.said_difference points.now said.old a.now b.now) said.new) }
{
    match (value_point(points, a), value_point(points, b)) {
        (Some(p), Some(q)) => {
            let mut both = List::new(alloc);
            both.push(p)?;
            both.push(q)?;
            said.marks.push(Mark {
                kind: Kind::Differ,
                points: both,
            })?;
            Ok(true)
        }
        _ => Ok(false),
    }
}

fn add_mark(
    alloc: Global,
    points: &[Option<Point>],
    kind: Kind,
    values: &[Val],
    said: &mut Said,
) -> Result<bool, NoMemory>
    ensures { IfOk result (λ done. Went done (spec.said_mark points.now said.old kind values.now) said.new) }
{
    match value_points(alloc, points, values)? {
        Some(points) => {
            said.marks.push(Mark { kind, points })?;
            Ok(true)
        }
        None => Ok(false),
    }
}

#[tactic(auto, using(crate::proofs::Reading::walks, crate::proofs::Reading::under))]
fn add_negated(
    alloc: Global,
    points: &[Option<Point>],
    part: &U,
    said: &mut Said,
) -> Result<bool, NoMemory>
    ensures { IfOk result (λ done. Went done (spec.with_factor points.now said.old (negated part.now)) said.new) }
{
    match part {
        U::Eq(a, b) => add_difference(alloc, points, a, b, said),
        U::Pred(symbol, args) => add_mark(
            alloc,
            points,
            Kind::Fails(*symbol),
            args.as_slice(),
            said,
        ),
        U::Zero | U::One | U::Add(_, _) | U::Mul(_, _) | U::Squash(_) | U::Not(_) => Ok(false),
        U::Sum(_) | U::Rel(_, _) => Ok(false),
    }
}

/// What the factors of a product say. Says whether each says something that a block may say.
#[tactic(auto, using(crate::proofs::Reading::walks))]
fn add_factors(
    alloc: Global,
    points: &[Option<Point>],
    u: &U,
    said: &mut Said,
) -> Result<bool, NoMemory>
    ensures { IfOk result (λ done. Went done (spec.folded (spec.with_factor points.now) said.old (factors u.now)) said.new) }
{
    match u {
        U::One | U::Rel(_, _) => Ok(true),
        U::Mul(a, b) => {
            if !add_factors(alloc, points, a.get(), said)? {
                return Ok(false);
            }
            add_factors(alloc, points, b.get(), said)
        }
        U::Eq(a, b) => add_equality(points, a, b, said),
        U::Pred(symbol, args) => add_mark(
            alloc,
            points,
            Kind::Holds(*symbol),
            args.as_slice(),
            said,
        ),
        U::Not(part) => add_negated(alloc, points, part.get(), said),
        U::Zero | U::Add(_, _) | U::Squash(_) | U::Sum(_) => Ok(false),
    }
}

/// The points of all places, where each has one.
#[tactic(auto, using(crate::proofs::Reading::lists))]
fn all_points(alloc: Global, points: &[Option<Point>]) -> Result<Option<List<Point>>, NoMemory>
    ensures { IfOk result (λ found. found ≡ spec.all_points points.now) }
{
    let mut found = Vec::with_capacity(alloc, points.len())?;
    for point in points {
        match point {
            Some(point) => found.push(*point)?,
            None => return Ok(None),
        }
    }
    Ok(Some(List::from_vec(found)))
}

/// So many places without a point.
#[tactic(auto, using(crate::proofs::Reading::lists))]
fn no_points(alloc: Global, sums: usize) -> Result<Vec<Option<Point>>, NoMemory>
    ensures { IfOk result (λ points. points.items ≡ replicate sums None) }
{
    let mut points = Vec::with_capacity(alloc, sums)?;
    for _i in 0..sums {
        points.push(None)?;
    }
    Ok(points)
}

/// The shape of so many sums around a product.
fn product_shape(alloc: Global, outs: u32, sums: usize, u: &U) -> Result<Option<Shape>, NoMemory>
    ensures { IfOk result (λ shape. shape ≡ spec.product_shape outs sums (factors u.now)) }
{
    let mut points = no_points(alloc, sums)?;
    let mut entries = Vec::new(alloc);
    if !place_atoms(u, &mut entries, points.as_mut_slice())? {
        return Ok(None);
    }
    if !all_placed(points.as_slice()) {
        return Ok(None);
    }
    let mut said = Said {
        equalities: List::new(alloc),
        marks: List::new(alloc),
        outputs: List::from_vec(no_points(alloc, outs as usize)?),
    };
    if !add_factors(alloc, points.as_slice(), u, &mut said)? {
        return Ok(None);
    }
    let Said {
        equalities,
        marks,
        outputs,
    } = said;
    match all_points(alloc, outputs.as_slice())? {
        Some(outputs) => Ok(Some(Shape {
            entries: List::from_vec(entries),
            equalities,
            marks,
            outputs,
        })),
        None => Ok(None),
    }
}

/// The same, where there are so many sums around the term already.
#[tactic(auto, using(crate::proofs::Reading::under))]
fn shape_under(alloc: Global, outs: u32, sums: usize, u: &U) -> Result<Option<Shape>, NoMemory>
    ensures { IfOk result (λ shape. shape ≡ spec.product_shape outs (sums + sum_count u.now) (factors (under_sums u.now))) }
{
    match u {
        U::Sum(body) => match sums.checked_add(1) {
            Some(more) => shape_under(alloc, outs, more, body.get()),
            None => Err(AllocError),
        },
        U::Zero | U::One | U::Add(_, _) | U::Mul(_, _) | U::Squash(_) | U::Not(_) => product_shape(
            alloc, outs, sums, u,
        ),
        U::Rel(_, _) | U::Eq(_, _) | U::Pred(_, _) => product_shape(alloc, outs, sums, u),
    }
}

/// The shape of a term, where it has one and the names below `outs` are the columns of its row.
#[tactic(auto, unfolding(crate::specs::TermShape::term_shape))]
pub fn shape_of(alloc: Global, outs: u32, u: &U) -> Result<Option<Shape>, NoMemory>
    ensures { IfOk result (λ shape. shape ≡ spec.term_shape outs u.now) }
{
    shape_under(alloc, outs, 0, u)
}
