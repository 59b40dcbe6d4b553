ghost use Rattle.std.specs.Prelude.{◌≡◌, ◌+◌, ◌^◌, ◌<◌, ◌≤◌, map};
ghost use Rattle.u_terms.specs.Binding.{closed_at, closed_path, mapped, mapped_value, opened};
ghost use Rattle.u_terms.specs.Size.{depth, list_depth, value_depth};
ghost use Rattle.u_binder.specs.Changes as changes;
ghost use Rattle.u_binder.specs.Changes.{exchanged, name_after, new_places, place_after};

use u_terms::{List, U, Val};

/// Puts the name at the place that dangles as 0. Other places and names stay as they are.
pub fn open_at(u: &mut U, name: u32)
    requires shallow { depth u.old < 2 ^ 32 }
    ensures { u.new ≡ opened u.old name }
{
    edit(u, Change::Open(name), 0);
}

/// Puts the place that dangles as 0 for the name; at a term that is opened with a name of its own, this undoes it.
pub fn close_at(u: &mut U, name: u32)
    requires shallow { depth u.old < 2 ^ 32 }
    ensures { u.new ≡ closed_at u.old name }
{
    let names = Change::Close {
        first: name,
        count: 1,
    };
    edit(u, names, 0);
}

/// Puts places for `count` names from `first` on, the outermost first: the last name has place 0.
pub fn close_path(u: &mut U, first: u32, count: u32)
    requires shallow { depth u.old + count < 2 ^ 32 }
    requires fits { first + count < 2 ^ 32 }
    ensures { u.new ≡ closed_path u.old first count }
{
    edit(u, Change::Close { first, count }, 0);
}

/// Exchanges two neighbouring groups of binders around a term: the places of the `inner` nearest binders come after those of the
/// `outer` next ones, each group in its order. Places further out stay.
pub fn exchange(u: &mut U, outer: u32, inner: u32)
    requires shallow { depth u.old + outer + inner < 2 ^ 32 }
    ensures { u.new ≡ exchanged outer inner u.old }
{
    edit(u, Change::Exchange { outer, inner }, 0);
}

/// An edit of all places and names of a term.
#[derive(Clone, Copy)]
enum Change {
    /// This name for the place that dangles as 0.
    Open(u32),
    /// Places for this many names from the first on.
    Close { first: u32, count: u32 },
    /// The places of the nearest binders after those of the next ones.
    Exchange { outer: u32, inner: u32 },
}

#[cycle(edit)]
#[tactic(auto, using(u_terms::proofs::Sizes::depth_at, u_terms::proofs::Mapped::mapped_layers))]
fn edit(u: &mut U, by: Change, binders: u32)
    requires shallow { depth u.old + binders + new_places by ≤ 2 ^ 32 }
    ensures { u.new ≡ mapped (place_after by) (name_after by) binders u.old }
{
    match u {
        U::Zero => {}
        U::One => {}
        U::Add(a, b) => {
            edit(a.get_mut(), by, binders);
            edit(b.get_mut(), by, binders);
        }
        U::Mul(a, b) => {
            edit(a.get_mut(), by, binders);
            edit(b.get_mut(), by, binders);
        }
        U::Squash(a) => edit(a.get_mut(), by, binders),
        U::Not(a) => edit(a.get_mut(), by, binders),
        U::Sum(body) => edit(body.get_mut(), by, binders + 1),
        U::Rel(_, args) => edit_list(args, by, binders),
        U::Eq(a, b) => {
            edit_value(a, by, binders);
            edit_value(b, by, binders);
        }
        U::Pred(_, args) => edit_list(args, by, binders),
    }
}

#[cycle(edit)]
#[tactic(auto, using(u_terms::proofs::Sizes::depth_at, u_terms::proofs::Mapped::mapped_layers))]
fn edit_value(value: &mut Val, by: Change, binders: u32)
    requires shallow { value_depth value.old + binders + new_places by ≤ 2 ^ 32 }
    ensures { value.new ≡ mapped_value (place_after by) (name_after by) binders value.old }
{
    match value {
        Val::Bound(place) => *value = at_place(*place, by, binders),
        Val::Free(name) => *value = at_name(*name, by, binders),
        Val::Lit(_) => {}
        Val::Fun(_, args) => edit_list(args, by, binders),
        Val::Agg(_, body) => edit(body.get_mut(), by, binders + 1),
    }
}

fn at_place(place: u32, by: Change, binders: u32) -> Val
    requires fits { binders + new_places by ≤ 2 ^ 32 }
    ensures { result ≡ place_after by binders place }
{
    match by {
        Change::Open(name) if place == binders => Val::Free(name),
        Change::Exchange { outer, inner } => Val::Bound(moved(place, binders, outer, inner)),
        _ => Val::Bound(place),
    }
}

// The place of a value after the groups were exchanged.
fn moved(place: u32, binders: u32, outer: u32, inner: u32) -> u32
    requires fits { binders + (outer + inner) ≤ 2 ^ 32 }
    ensures { result ≡ changes.moved outer inner binders place }
{
    if place < binders {
        return place;
    }
    let from_here = place - binders;
    if from_here < inner {
        return place + outer;
    }
    if from_here - inner < outer {
        return place - inner;
    }
    place
}

fn at_name(name: u32, by: Change, binders: u32) -> Val
    requires fits { binders + new_places by ≤ 2 ^ 32 }
    ensures { result ≡ name_after by binders name }
{
    match by {
        Change::Close { first, count } if first <= name && name - first < count => {
            Val::Bound(binders + (count - 1 - (name - first)))
        }
        _ => Val::Free(name),
    }
}

#[cycle(edit)]
fn edit_list(values: &mut List<Val>, by: Change, binders: u32)
    requires shallow { list_depth values.old + binders + new_places by ≤ 2 ^ 32 }
    ensures { values.new ≡ map (mapped_value (place_after by) (name_after by) binders) values.old }
{
    edit_all(values.as_mut_slice(), by, binders);
}

#[cycle(edit)]
fn edit_all(values: &mut [Val], by: Change, binders: u32)
    requires shallow { list_depth values.old + binders + new_places by ≤ 2 ^ 32 }
    ensures { values.new ≡ map (mapped_value (place_after by) (name_after by) binders) values.old }
{
    for value in values.iter_mut() {
        edit_value(value, by, binders);
    }
}
