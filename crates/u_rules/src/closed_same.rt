//! Comparison of a term in place, whose places dangle where binders stand around it, with a term that has names there: the names are
//! closed while both are read, and nothing is written.
ghost use Rattle.std.specs.Prelude.{◌≡◌, ◌↔◌, ◌+◌, ◌<◌, ◌≤◌, ◌^◌, IsTrue, map};
ghost use Rattle.u_terms.specs.Binding.{closed_path, mapped, mapped_value, place_for_names, same_place};
ghost use Rattle.u_terms.specs.Size.{depth, list_depth, value_depth};

use u_terms::{U, Val};

/// Whether a term in place is the whole term after the names from `first` on are closed, the last one innermost.
pub fn same_closed(part: &U, whole: &U, first: u32, count: u32) -> bool
    requires shallow { depth part.now + count < 2 ^ 32 }
    requires fits { first + count < 2 ^ 32 }
    ensures { IsTrue result ↔ (part.now ≡ closed_path whole.now first count) }
{
    same_inside(part, whole, first, count, 0)
}

#[cycle(same_closed)]
#[tactic(auto, using(u_terms::proofs::Sizes::depth_at, u_terms::proofs::Mapped::mapped_at))]
pub fn same_inside(a: &U, b: &U, first: u32, count: u32, binders: u32) -> bool
    requires shallow { depth a.now + binders + count ≤ 2 ^ 32 }
    requires fits { first + count < 2 ^ 32 }
    ensures { IsTrue result ↔ (a.now ≡ mapped same_place (place_for_names first count) binders b.now) }
{
    match b {
        U::Zero => match a {
            U::Zero => true,
            _ => false,
        },
        U::One => match a {
            U::One => true,
            _ => false,
        },
        U::Add(x, y) => match a {
            U::Add(p, q) => {
                same_inside(p.get(), x.get(), first, count, binders)
                    && same_inside(q.get(), y.get(), first, count, binders)
            }
            _ => false,
        },
        U::Mul(x, y) => match a {
            U::Mul(p, q) => {
                same_inside(p.get(), x.get(), first, count, binders)
                    && same_inside(q.get(), y.get(), first, count, binders)
            }
            _ => false,
        },
        U::Squash(x) => match a {
            U::Squash(p) => same_inside(p.get(), x.get(), first, count, binders),
            _ => false,
        },
        U::Not(x) => match a {
            U::Not(p) => same_inside(p.get(), x.get(), first, count, binders),
            _ => false,
        },
        U::Sum(x) => match a {
            U::Sum(p) => same_inside(p.get(), x.get(), first, count, binders + 1),
            _ => false,
        },
        U::Rel(j, xs) => match a {
            U::Rel(i, ps) => {
                i == j && same_lists(ps.as_slice(), xs.as_slice(), first, count, binders)
            }
            _ => false,
        },
        U::Eq(x, y) => match a {
            U::Eq(p, q) => {
                same_values(p, x, first, count, binders) && same_values(q, y, first, count, binders)
            }
            _ => false,
        },
        U::Pred(j, xs) => match a {
            U::Pred(i, ps) => {
                i == j && same_lists(ps.as_slice(), xs.as_slice(), first, count, binders)
            }
            _ => false,
        },
    }
}

#[cycle(same_closed)]
#[tactic(auto, using(u_terms::proofs::Sizes::depth_at, u_terms::proofs::Mapped::mapped_at))]
pub fn same_values(a: &Val, b: &Val, first: u32, count: u32, binders: u32) -> bool
    requires shallow { value_depth a.now + binders + count ≤ 2 ^ 32 }
    requires fits { first + count < 2 ^ 32 }
    ensures { IsTrue result ↔ (a.now ≡ mapped_value same_place (place_for_names first count) binders b.now) }
{
    match b {
        Val::Bound(j) => match a {
            Val::Bound(i) => i == j,
            _ => false,
        },
        Val::Free(name) => is_name(a, *name, first, count, binders),
        Val::Lit(j) => match a {
            Val::Lit(i) => i == j,
            _ => false,
        },
        Val::Fun(j, xs) => match a {
            Val::Fun(i, ps) => {
                i == j && same_lists(ps.as_slice(), xs.as_slice(), first, count, binders)
            }
            _ => false,
        },
        Val::Agg(j, x) => match a {
            Val::Agg(i, p) => i == j && same_inside(p.get(), x.get(), first, count, binders + 1),
            _ => false,
        },
    }
}

// Whether the value is what stands for the name.
fn is_name(a: &Val, name: u32, first: u32, count: u32, binders: u32) -> bool
    requires shallow { binders + count ≤ 2 ^ 32 }
    requires fits { first + count < 2 ^ 32 }
    ensures { IsTrue result ↔ (a.now ≡ place_for_names first count binders name) }
{
    if first <= name && name - first < count {
        match a {
            Val::Bound(place) => *place == binders + (count - 1 - (name - first)),
            _ => false,
        }
    } else {
        match a {
            Val::Free(other) => *other == name,
            _ => false,
        }
    }
}

#[cycle(same_closed)]
pub fn same_lists(a: &[Val], b: &[Val], first: u32, count: u32, binders: u32) -> bool
    requires shallow { list_depth a.now + binders + count ≤ 2 ^ 32 }
    requires fits { first + count < 2 ^ 32 }
    ensures { IsTrue result ↔ (a.now ≡ map (mapped_value same_place (place_for_names first count) binders) b.now) }
{
    if a.len() != b.len() {
        return false;
    }
    for i in 0..a.len() {
        if !same_values(&a[i], &b[i], first, count, binders) {
            return false;
        }
    }
    true
}
