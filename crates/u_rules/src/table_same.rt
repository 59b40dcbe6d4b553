//! Comparison of a term in place with the sides of the rules whose rows speak of numbers of sums, of keys and of foreign keys, the names
//! of these closed: nothing is written.
ghost use Rattle.std.specs.Prelude.{◌≡◌, ◌↔◌, ◌∷◌, ◌+◌, ◌<◌, ◌≤◌, ◌^◌, IsTrue, MatchOption, map};
ghost use Rattle.u_terms.specs.Binding as binding;
ghost use Rattle.u_terms.specs.Binding.{closed_path, mapped, mapped_value, place_for_names, same_place};
ghost use Rattle.u_terms.specs.Products.{product_of};
ghost use Rattle.u_terms.specs.Size.{depth, list_depth, value_depth};
ghost use Rattle.u_terms.specs.declared.term.U.{U as TheU};
ghost use Rattle.u_terms.specs.declared.term.Val.TheVariants as v;
ghost use Rattle.u_rules.specs.Factors.{cells_of, factor_of};
ghost use Rattle.u_rules.specs.Sides.{side_of};
ghost use Rattle.u_rules.specs.Terms as terms;
ghost use Rattle.u_rules.specs.Terms.{◌⊗◌, R};

use crate::changed_same::{Change, same_changed};
use crate::closed_same::{same_inside, same_lists, same_values};
use u_terms::{Fkey, U, Val};

/// A row: values, or the places of that many sums, the outermost first.
#[derive(Clone, Copy)]
pub enum Cells<'a> {
    Values(&'a [Val]),
    Places(u32),
}

/// A factor of a side.
#[derive(Clone, Copy)]
pub enum Factor<'a> {
    /// A row of a table.
    Row(u32, Cells<'a>),
    /// The equality of a column of the one row and a column of the other.
    Columns(Cells<'a>, u32, Cells<'a>, u32),
    /// The equality of two values.
    Values(&'a Val, &'a Val),
}

// ---- sums
pub fn is_sum_swap(
    outer: u32,
    inner: u32,
    body: &U,
    turned: bool,
    u: &U,
    first: u32,
    count: u32,
) -> bool
    requires shallow { depth u.now + count < 2 ^ 32 }
    requires fits { first + count < 2 ^ 32 }
    ensures { IsTrue result ↔ (u.now ≡ closed_path (side_of turned (binding.sums (outer + inner) body.now) (binding.sums (outer + inner) (terms.turned outer inner body.now))) first count) }
{
    match under_sums(u, u64::from(outer) + u64::from(inner)) {
        Some(under) => is_swapped(outer, inner, body, turned, under, first, count),
        None => false,
    }
}

// Whether the term is the body, its places exchanged where it is turned, under the sums of both groups.
fn is_swapped(outer: u32, inner: u32, body: &U, turned: bool, u: &U, first: u32, count: u32) -> bool
    requires shallow { depth u.now + (outer + inner) + count < 2 ^ 32 }
    requires fits { first + count < 2 ^ 32 }
    ensures { IsTrue result ↔ (u.now ≡ mapped same_place (place_for_names first count) (outer + inner) (side_of turned body.now (terms.turned outer inner body.now))) }
{
    if turned {
        let change = Change::Exchange(outer, inner);
        same_changed(body, change, 0, u, first, count, outer + inner)
    } else {
        same_inside(u, body, first, count, outer + inner)
    }
}

// What stands under so many sums.
#[cycle(under_sums)]
fn under_sums<'a>(u: &'a U, count: u64) -> Option<&'a U>
    ensures { MatchOption result ((body : TheU) → u.now ≡ binding.sums count body → ⊥) (λ body. u.now ≡ binding.sums count body.now) }
{
    if count == 0 {
        return Some(u);
    }
    match u {
        U::Sum(body) => under_sums(body.get(), count - 1),
        _ => None,
    }
}

// ---- rows
#[tactic(auto, using(crate::proofs::terms::UnderSums::columns_at))]
fn is_column(v: &Val, cells: Cells<'_>, at: u32, first: u32, count: u32, binders: u32) -> bool
    requires shallow { value_depth v.now + binders + count ≤ 2 ^ 32 }
    requires fits { first + count < 2 ^ 32 }
    ensures { IsTrue result ↔ (v.now ≡ mapped_value same_place (place_for_names first count) binders (terms.column (cells_of cells.entry) at)) }
{
    match cells {
        Cells::Values(values) => match values.get(at as usize) {
            Some(value) => same_values(v, value, first, count, binders),
            None => same_values(v, &Val::Lit(0), first, count, binders),
        },
        Cells::Places(width) => {
            if at < width {
                same_values(v, &Val::Bound(width - 1 - at), first, count, binders)
            } else {
                same_values(v, &Val::Lit(0), first, count, binders)
            }
        }
    }
}

fn are_cells(values: &[Val], cells: Cells<'_>, first: u32, count: u32, binders: u32) -> bool
    requires shallow { list_depth values.now + binders + count ≤ 2 ^ 32 }
    requires fits { first + count < 2 ^ 32 }
    ensures { IsTrue result ↔ (values.now ≡ map (mapped_value same_place (place_for_names first count) binders) (cells_of cells.entry)) }
{
    match cells {
        Cells::Values(others) => same_lists(values, others, first, count, binders),
        Cells::Places(width) => are_places(values, width),
    }
}

#[cycle(are_places)]
fn are_places(values: &[Val], width: u32) -> bool
    ensures { IsTrue result ↔ (values.now ≡ terms.places width) }
{
    match values {
        [] => width == 0,
        [value, rest @ ..] => width > 0
            && is_place(value, width - 1)
            && are_places(rest, width - 1),
    }
}

fn is_place(value: &Val, place: u32) -> bool
    ensures { IsTrue result ↔ (value.now ≡ v.Bound place) }
{
    match value {
        Val::Bound(found) => *found == place,
        _ => false,
    }
}

// ---- products
#[tactic(auto, using(u_terms::proofs::Sizes::depth_at, u_terms::proofs::Mapped::mapped_at))]
fn is_factor(u: &U, factor: Factor<'_>, first: u32, count: u32, binders: u32) -> bool
    requires shallow { depth u.now + binders + count ≤ 2 ^ 32 }
    requires fits { first + count < 2 ^ 32 }
    ensures { IsTrue result ↔ (u.now ≡ mapped same_place (place_for_names first count) binders (factor_of factor.entry)) }
{
    match factor {
        Factor::Row(table, cells) => match u {
            U::Rel(found, values) => {
                *found == table && are_cells(values.as_slice(), cells, first, count, binders)
            }
            _ => false,
        },
        Factor::Columns(s, c, t, d) => match u {
            U::Eq(x, y) => {
                is_column(x, s, c, first, count, binders)
                    && is_column(y, t, d, first, count, binders)
            }
            _ => false,
        },
        Factor::Values(a, b) => match u {
            U::Eq(x, y) => {
                same_values(x, a, first, count, binders) && same_values(y, b, first, count, binders)
            }
            _ => false,
        },
    }
}

// Whether the term is the product of this factor and the equalities of columns.
#[cycle(are_columns)]
#[tactic(auto, using(u_terms::proofs::Sizes::depth_at, u_terms::proofs::Mapped::mapped_at))]
fn are_columns(
    u: &U,
    head: Factor<'_>,
    s: Cells<'_>,
    cs: &[u32],
    t: Cells<'_>,
    ds: &[u32],
    first: u32,
    count: u32,
    binders: u32,
) -> bool
    requires shallow { depth u.now + binders + count ≤ 2 ^ 32 }
    requires fits { first + count < 2 ^ 32 }
    ensures { IsTrue result ↔ (u.now ≡ mapped same_place (place_for_names first count) binders (product_of (factor_of head.entry ∷ terms.equal_columns (cells_of s.entry) cs.now (cells_of t.entry) ds.now))) }
{
    match cs {
        [] => is_factor(u, head, first, count, binders),
        [c, more @ ..] => match ds {
            [] => is_factor(u, head, first, count, binders),
            [d, others @ ..] => match u {
                U::Mul(x, y) => {
                    let next = Factor::Columns(s, *c, t, *d);
                    is_factor(x.get(), head, first, count, binders)
                        && are_columns(y.get(), next, s, more, t, others, first, count, binders)
                }
                _ => false,
            },
        },
    }
}

// Whether the term is the product of this factor and the equalities of both rows.
#[cycle(are_rows)]
#[tactic(auto, using(u_terms::proofs::Sizes::depth_at, u_terms::proofs::Mapped::mapped_at))]
fn are_rows(
    u: &U,
    head: Factor<'_>,
    s: &[Val],
    t: &[Val],
    first: u32,
    count: u32,
    binders: u32,
) -> bool
    requires shallow { depth u.now + binders + count ≤ 2 ^ 32 }
    requires fits { first + count < 2 ^ 32 }
    ensures { IsTrue result ↔ (u.now ≡ mapped same_place (place_for_names first count) binders (product_of (factor_of head.entry ∷ terms.equal_rows s.now t.now))) }
{
    match s {
        [] => is_factor(u, head, first, count, binders),
        [a, more @ ..] => match t {
            [] => is_factor(u, head, first, count, binders),
            [b, others @ ..] => match u {
                U::Mul(x, y) => {
                    let next = Factor::Values(a, b);
                    is_factor(x.get(), head, first, count, binders)
                        && are_rows(y.get(), next, more, others, first, count, binders)
                }
                _ => false,
            },
        },
    }
}

// ---- keys and foreign keys
pub fn is_key(
    table: u32,
    key: &[u32],
    one: &[Val],
    other: &[Val],
    turned: bool,
    u: &U,
    first: u32,
    count: u32,
) -> bool
    requires shallow { depth u.now + count < 2 ^ 32 }
    requires fits { first + count < 2 ^ 32 }
    ensures { IsTrue result ↔ (u.now ≡ closed_path (side_of turned (product_of (R table one.now ∷ (R table other.now ∷ terms.equal_columns one.now key.now other.now key.now))) (product_of (R table one.now ∷ terms.equal_rows one.now other.now))) first count) }
{
    let head = Factor::Row(table, Cells::Values(one));
    if turned {
        return are_rows(u, head, one, other, first, count, 0);
    }
    are_both(table, key, one, other, u, first, count)
}

// Whether the term is the product of both rows and the equalities of the key's columns.
#[tactic(auto, using(u_terms::proofs::Sizes::depth_at, u_terms::proofs::Mapped::mapped_at))]
fn are_both(
    table: u32,
    key: &[u32],
    one: &[Val],
    other: &[Val],
    u: &U,
    first: u32,
    count: u32,
) -> bool
    requires shallow { depth u.now + count < 2 ^ 32 }
    requires fits { first + count < 2 ^ 32 }
    ensures { IsTrue result ↔ (u.now ≡ closed_path (product_of (R table one.now ∷ (R table other.now ∷ terms.equal_columns one.now key.now other.now key.now))) first count) }
{
    let (one, other) = (Cells::Values(one), Cells::Values(other));
    match u {
        U::Mul(x, y) => {
            is_factor(x.get(), Factor::Row(table, one), first, count, 0)
                && are_columns(
                    y.get(),
                    Factor::Row(table, other),
                    one,
                    key,
                    other,
                    key,
                    first,
                    count,
                    0,
                )
        }
        _ => false,
    }
}

pub fn is_fkey(
    fkey: &Fkey,
    width: u32,
    row: &[Val],
    turned: bool,
    u: &U,
    first: u32,
    count: u32,
) -> bool
    requires shallow { depth u.now + count < 2 ^ 32 }
    requires fits { first + count < 2 ^ 32 }
    ensures { IsTrue result ↔ (u.now ≡ closed_path (side_of turned (R fkey.now.from row.now) (R fkey.now.from row.now ⊗ terms.found_rows width fkey.now row.now)) first count) }
{
    if turned {
        return is_row_and_found(fkey, width, row, u, first, count);
    }
    is_factor(
        u,
        Factor::Row(fkey.from, Cells::Values(row)),
        first,
        count,
        0,
    )
}

#[tactic(auto, using(u_terms::proofs::Sizes::depth_at, u_terms::proofs::Mapped::mapped_at))]
fn is_row_and_found(fkey: &Fkey, width: u32, row: &[Val], u: &U, first: u32, count: u32) -> bool
    requires shallow { depth u.now + count < 2 ^ 32 }
    requires fits { first + count < 2 ^ 32 }
    ensures { IsTrue result ↔ (u.now ≡ closed_path (R fkey.now.from row.now ⊗ terms.found_rows width fkey.now row.now) first count) }
{
    match u {
        U::Mul(x, y) => {
            is_factor(
                x.get(),
                Factor::Row(fkey.from, Cells::Values(row)),
                first,
                count,
                0,
            ) && are_found_rows(fkey, width, row, y.get(), first, count)
        }
        _ => false,
    }
}

// Whether the term is how many rows the row refers to.
fn are_found_rows(fkey: &Fkey, width: u32, row: &[Val], u: &U, first: u32, count: u32) -> bool
    requires shallow { depth u.now + count < 2 ^ 32 }
    requires fits { first + count < 2 ^ 32 }
    ensures { IsTrue result ↔ (u.now ≡ closed_path (terms.found_rows width fkey.now row.now) first count) }
{
    let places = Cells::Places(width);
    match under_sums(u, u64::from(width)) {
        Some(body) => are_columns(
            body,
            Factor::Row(fkey.to, places),
            places,
            fkey.key.as_slice(),
            Cells::Values(row),
            fkey.cols.as_slice(),
            first,
            count,
            width,
        ),
        None => false,
    }
}
