//! Two shapes, and whether entries of the one may go to entries of the other.
ghost use Rattle.std.specs.Prelude.{◌≡◌, ◌++◌, ◌∷◌, [], IfOk};
ghost use Rattle.std.specs.List.{list_all, filter};
ghost use Rattle.shapes.specs.Shapes as plain;
ghost use Rattle.shapes.specs.Tests as shapes;
ghost use Rattle.bag_search.specs.Entries as spec;
ghost use Rattle.bag_search.specs.Entries.{AreSides};

use crate::points::{Side, equal};
use shapes::{Entry, Point, Shape};
use std::alloc::{AllocError, Global};

/// Two shapes, and the literals that an equality of one of them holds.
#[derive(Clone, Copy, Drop)]
pub struct Sides<'a> {
    pub left: Side<'a>,
    pub right: Side<'a>,
    pub literals: &'a [Point],
}

/// An entry of the left shape, and the entry of the right one that it goes to.
#[derive(Clone, Copy, Drop)]
pub struct Step {
    pub entry: u32,
    pub to: u32,
}

/// Whether p and q are equal in the left shape exactly where p2 and q2 are in the right one.
fn like(sides: &Sides, p: Point, p2: Point, q: Point, q2: Point) -> bool
    requires { AreSides sides.now }
    ensures { result ≡ spec.like sides.now.left.shape.now sides.now.right.shape.now p p2 q q2 }
{
    equal(&sides.left, p, q) == equal(&sides.right, p2, q2)
}

/// Whether a point that goes to p2 goes with each column of an entry of so many.
#[tactic(auto, using(crate::proofs::Columns::laws))]
fn point_fits(sides: &Sides, p: Point, p2: Point, step: Step, columns: u32) -> bool
    requires { AreSides sides.now }
    ensures { result ≡ list_all (λ q. spec.like sides.now.left.shape.now sides.now.right.shape.now p p2 q (spec.moved_to step.to q)) (shapes.columns_from step.entry 0 columns) }
{
    let Step { entry, to } = step;
    for column in 0..columns {
        if !like(
            sides,
            p,
            p2,
            Point::Column { entry, column },
            Point::Column { entry: to, column },
        ) {
            return false;
        }
    }
    true
}

/// Whether each column of an entry of so many does.
#[tactic(auto, using(crate::proofs::Columns::laws))]
fn columns_fit(sides: &Sides, one: Step, other: Step, columns: u32, others: u32) -> bool
    requires { AreSides sides.now }
    ensures { result ≡ list_all (λ p. list_all (λ q. spec.like sides.now.left.shape.now sides.now.right.shape.now p (spec.moved_to one.to p) q (spec.moved_to other.to q)) (shapes.columns_from other.entry 0 others)) (shapes.columns_from one.entry 0 columns) }
{
    let Step { entry, to } = one;
    for column in 0..columns {
        if !point_fits(
            sides,
            Point::Column { entry, column },
            Point::Column { entry: to, column },
            other,
            others,
        ) {
            return false;
        }
    }
    true
}

/// The entry of this number.
#[tactic(auto, using(crate::proofs::Columns::entries))]
fn entry_of(side: &Side, number: u32) -> Entry
    ensures { result ≡ plain.entry_of side.now.shape.now.entries number }
{
    match side.shape.entries.as_slice().get(number as usize) {
        Some(entry) => *entry,
        None => Entry {
            table: 0,
            columns: 0,
        },
    }
}

/// Whether the two entries may go where they go both.
pub fn pair_fits(sides: &Sides, one: Step, other: Step) -> bool
    requires { AreSides sides.now }
    ensures { result ≡ spec.pair_fits sides.now.left.shape.now sides.now.right.shape.now one.entry one.to other.entry other.to }
{
    let columns = entry_of(&sides.left, one.entry).columns;
    let others = entry_of(&sides.left, other.entry).columns;
    columns_fit(sides, one, other, columns, others)
}

/// Whether a point that goes to p2 goes with each literal, which stays.
fn literals_fit(sides: &Sides, p: Point, p2: Point) -> bool
    requires { AreSides sides.now }
    ensures { result ≡ spec.literals_fit sides.now.left.shape.now sides.now.right.shape.now p p2 }
{
    sides.literals.iter().all(|a| like(sides, p, p2, *a, *a))
}

/// Whether each column of an entry of so many does.
#[tactic(auto, using(crate::proofs::Columns::laws))]
fn columns_with_literals(sides: &Sides, step: Step, columns: u32) -> bool
    requires { AreSides sides.now }
    ensures { result ≡ list_all (λ p. spec.literals_fit sides.now.left.shape.now sides.now.right.shape.now p (spec.moved_to step.to p)) (shapes.columns_from step.entry 0 columns) }
{
    let Step { entry, to } = step;
    for column in 0..columns {
        if !literals_fit(
            sides,
            Point::Column { entry, column },
            Point::Column { entry: to, column },
        ) {
            return false;
        }
    }
    true
}

fn same_entry(a: Entry, b: Entry) -> bool
    ensures { result ≡ shapes.same_entry a b }
{
    a.table == b.table && a.columns == b.columns
}

/// Whether an entry may go where it goes.
pub fn entry_fits(sides: &Sides, step: Step) -> bool
    requires { AreSides sides.now }
    ensures { result ≡ spec.entry_fits sides.now.left.shape.now sides.now.right.shape.now step.entry step.to }
{
    let entry = entry_of(&sides.left, step.entry);
    same_entry(entry, entry_of(&sides.right, step.to))
        && columns_with_literals(sides, step, entry.columns)
        && pair_fits(sides, step, step)
}

/// Whether the same literals are equal in both shapes.
pub fn literals_alike(sides: &Sides) -> bool
    requires { AreSides sides.now }
    ensures { result ≡ spec.literals_alike sides.now.left.shape.now sides.now.right.shape.now }
{
    sides.literals.iter().all(|a| literals_fit(sides, *a, *a))
}

fn add_literal(p: Point, found: &mut Vec<Point>) -> Result<(), AllocError>
    ensures { IfOk result (λ done. found.new.items ≡ found.old.items ++ filter shapes.is_literal (p ∷ [])) }
{
    match p {
        Point::Column { .. } => Ok(()),
        Point::Literal(_) => {
            found.push(p)?;
            Ok(())
        }
    }
}

#[tactic(auto, using(crate::proofs::Literals::one_more))]
fn add_literals(equalities: &[(Point, Point)], found: &mut Vec<Point>) -> Result<(), AllocError>
    ensures { IfOk result (λ done. found.new.items ≡ found.old.items ++ filter shapes.is_literal (plain.sides equalities.now)) }
{
    for equality in equalities {
        add_literal(equality.0, found)?;
        add_literal(equality.1, found)?;
    }
    Ok(())
}

/// The literals that an equality of one of two shapes holds.
#[tactic(auto, using(crate::proofs::Literals::of_both))]
pub fn literals_of(alloc: Global, s: &Shape, t: &Shape) -> Result<Vec<Point>, AllocError>
    ensures { IfOk result (λ found. found.items ≡ shapes.literals s.now t.now) }
{
    let mut found = Vec::new(alloc);
    add_literals(s.equalities.as_slice(), &mut found)?;
    add_literals(t.equalities.as_slice(), &mut found)?;
    Ok(found)
}
