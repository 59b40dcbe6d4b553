//! Comparison of a term in place with the term that a side is, its names closed: nothing is built, and nothing is closed.
ghost use Rattle.std.specs.Prelude.{◌≡◌, ◌↔◌, ◌+◌, ◌<◌, ◌≤◌, ◌^◌, IsTrue, slice_get};
ghost use Rattle.u_terms.specs.Binding.{closed_path, mapped, mapped_value, place_for_names, same_place};
ghost use Rattle.u_terms.specs.Size.{depth as depth_of, value_depth};
ghost use Rattle.u_rules.specs.Answers.{side_found};
ghost use Rattle.u_rules.specs.Sides.{side_of};
ghost use Rattle.u_rules.specs.Templates.{denote, term_of, value_of};
ghost use Rattle.u_rules.specs.Terms as terms;

use crate::changed_same::{Change, same_changed};
use crate::closed_same::{same_inside, same_lists, same_values};
use crate::forms::{Side, Template};
use crate::found::Found;
use crate::holes::{num, term, value, values};
use crate::rule::Arg;
use crate::table_same::{is_fkey, is_key, is_sum_swap};
use u_terms::{U, Val};

/// Whether a term in place is the left or, turned, the right side after the names from `first` on are closed.
pub fn compares(found: &Found<'_>, turned: bool, u: &U, first: u32, count: u32) -> bool
    requires shallow { depth_of u.now + count < 2 ^ 32 }
    requires fits { first + count < 2 ^ 32 }
    ensures { IsTrue result ↔ (u.now ≡ closed_path (side_found turned found.now) first count) }
{
    match *found {
        Found::Plain(template, args) => is_template(template, args, turned, u, first, count),
        Found::SumSwap(outer, inner, body) => {
            is_sum_swap(outer, inner, body, turned, u, first, count)
        }
        Found::Key(table, key, one, other) => {
            is_key(table, key, one, other, turned, u, first, count)
        }
        Found::Fkey(fkey, width, row) => is_fkey(fkey, width, row, turned, u, first, count),
    }
}

fn is_template(
    template: &Template<'_>,
    args: &[Arg],
    turned: bool,
    u: &U,
    first: u32,
    count: u32,
) -> bool
    requires shallow { depth_of u.now + count < 2 ^ 32 }
    requires fits { first + count < 2 ^ 32 }
    ensures { IsTrue result ↔ (u.now ≡ closed_path (side_of turned (denote args.now template.now.left) (denote args.now template.now.right)) first count) }
{
    if turned {
        compares_inside(&template.right, args, u, first, count, 0)
    } else {
        compares_inside(&template.left, args, u, first, count, 0)
    }
}

#[cycle(compares)]
#[tactic(auto, using(u_terms::proofs::Sizes::depth_at, u_terms::proofs::Mapped::mapped_at))]
fn compares_inside(
    side: &Side<'_>,
    args: &[Arg],
    u: &U,
    first: u32,
    count: u32,
    binders: u32,
) -> bool
    requires shallow { depth_of u.now + binders + count ≤ 2 ^ 32 }
    requires fits { first + count < 2 ^ 32 }
    ensures { IsTrue result ↔ (u.now ≡ mapped same_place (place_for_names first count) binders (denote args.now side.now)) }
{
    match side {
        Side::Zero => matches!(u, U::Zero),
        Side::One => matches!(u, U::One),
        Side::Add(a, b) => match u {
            U::Add(x, y) => {
                compares_inside(a, args, x.get(), first, count, binders)
                    && compares_inside(b, args, y.get(), first, count, binders)
            }
            _ => false,
        },
        Side::Mul(a, b) => match u {
            U::Mul(x, y) => {
                compares_inside(a, args, x.get(), first, count, binders)
                    && compares_inside(b, args, y.get(), first, count, binders)
            }
            _ => false,
        },
        Side::Squash(a) => match u {
            U::Squash(x) => compares_inside(a, args, x.get(), first, count, binders),
            _ => false,
        },
        Side::Not(a) => match u {
            U::Not(x) => compares_inside(a, args, x.get(), first, count, binders),
            _ => false,
        },
        Side::Sum(a) => match u {
            U::Sum(x) => compares_inside(a, args, x.get(), first, count, binders + 1),
            _ => false,
        },
        Side::Hole(i) => is_hole(args, *i, u, first, count, binders),
        Side::Put(i, j) => is_put(args, *i, *j, u, first, count, binders),
        Side::Eq(i, j) => match u {
            U::Eq(x, y) => {
                is_value(args, *i, x, first, count, binders)
                    && is_value(args, *j, y, first, count, binders)
            }
            _ => false,
        },
        Side::PlaceEq(j) => match u {
            U::Eq(x, y) => {
                same_values(x, &Val::Bound(0), first, count, binders)
                    && is_value(args, *j, y, first, count, binders)
            }
            _ => false,
        },
        Side::Pred(i, j) => match u {
            U::Pred(m, s) => {
                num(args, *i) == *m
                    && same_lists(s.as_slice(), values(args, *j), first, count, binders)
            }
            _ => false,
        },
    }
}

fn is_hole(args: &[Arg], i: usize, u: &U, first: u32, count: u32, binders: u32) -> bool
    requires shallow { depth_of u.now + binders + count ≤ 2 ^ 32 }
    requires fits { first + count < 2 ^ 32 }
    ensures { IsTrue result ↔ (u.now ≡ mapped same_place (place_for_names first count) binders (term_of (slice_get args.now i))) }
{
    match term(args, i) {
        Some(x) => same_inside(u, x, first, count, binders),
        None => same_inside(u, &U::Zero, first, count, binders),
    }
}

fn is_put(args: &[Arg], i: usize, j: usize, u: &U, first: u32, count: u32, binders: u32) -> bool
    requires shallow { depth_of u.now + binders + count ≤ 2 ^ 32 }
    requires fits { first + count < 2 ^ 32 }
    ensures { IsTrue result ↔ (u.now ≡ mapped same_place (place_for_names first count) binders (terms.put (value_of (slice_get args.now j)) (term_of (slice_get args.now i)))) }
{
    match (term(args, i), value(args, j)) {
        (Some(f), Some(e)) => same_changed(f, Change::Put(e), 0, u, first, count, binders),
        (Some(f), None) => same_changed(f, Change::Put(&Val::Lit(0)), 0, u, first, count, binders),
        (None, Some(e)) => same_changed(&U::Zero, Change::Put(e), 0, u, first, count, binders),
        (None, None) => same_changed(
            &U::Zero,
            Change::Put(&Val::Lit(0)),
            0,
            u,
            first,
            count,
            binders,
        ),
    }
}

fn is_value(args: &[Arg], i: usize, v: &Val, first: u32, count: u32, binders: u32) -> bool
    requires shallow { value_depth v.now + binders + count ≤ 2 ^ 32 }
    requires fits { first + count < 2 ^ 32 }
    ensures { IsTrue result ↔ (v.now ≡ mapped_value same_place (place_for_names first count) binders (value_of (slice_get args.now i))) }
{
    match value(args, i) {
        Some(e) => same_values(v, e, first, count, binders),
        None => same_values(v, &Val::Lit(0), first, count, binders),
    }
}
