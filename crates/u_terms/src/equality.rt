ghost use Rattle.std.specs.Prelude.{◌≡◌, ◌↔◌, IsTrue};

use crate::term::{U, Val};

/// Whether both are one term.
#[cycle(same)]
pub fn same(a: &U, b: &U) -> bool
    ensures { IsTrue result ↔ (a.now ≡ b.now) }
{
    match (a, b) {
        (U::Zero, U::Zero) | (U::One, U::One) => true,
        (U::Add(a1, a2), U::Add(b1, b2)) | (U::Mul(a1, a2), U::Mul(b1, b2)) => {
            same(a1.get(), b1.get()) && same(a2.get(), b2.get())
        }
        (U::Squash(a), U::Squash(b)) | (U::Not(a), U::Not(b)) | (U::Sum(a), U::Sum(b)) => {
            same(a.get(), b.get())
        }
        (U::Rel(i, a), U::Rel(j, b)) | (U::Pred(i, a), U::Pred(j, b)) => {
            i == j && same_list(a.as_slice(), b.as_slice())
        }
        (U::Eq(a1, a2), U::Eq(b1, b2)) => same_value(a1, b1) && same_value(a2, b2),
        _ => false,
    }
}

/// Whether both are one value.
#[cycle(same)]
pub fn same_value(a: &Val, b: &Val) -> bool
    ensures { IsTrue result ↔ (a.now ≡ b.now) }
{
    match (a, b) {
        (Val::Bound(i), Val::Bound(j))
        | (Val::Free(i), Val::Free(j))
        | (Val::Lit(i), Val::Lit(j)) => i == j,
        (Val::Fun(i, a), Val::Fun(j, b)) => i == j && same_list(a.as_slice(), b.as_slice()),
        (Val::Agg(i, a), Val::Agg(j, b)) => i == j && same(a.get(), b.get()),
        _ => false,
    }
}

#[cycle(same)]
fn same_list(a: &[Val], b: &[Val]) -> bool
    ensures { IsTrue result ↔ (a.now ≡ b.now) }
{
    if a.len() != b.len() {
        return false;
    }
    for (x, y) in a.iter().zip(b) {
        if !same_value(x, y) {
            return false;
        }
    }
    true
}
