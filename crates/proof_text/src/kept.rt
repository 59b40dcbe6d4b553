//! Parts of what is kept, written anew.
ghost use Rattle.std.specs.Prelude.{◌≡◌, ◌≤◌, ◌<◌, length, take, OnOk};

use std::alloc::{AllocError, Global};
use std::mem;
use u_rules::Arg;
use u_terms::{Boxed, List, U, Val};

/// Puts the item there.
pub fn put<T: Drop>(kept: &mut T, item: T)
    ensures { kept.new ≡ item }
{
    *kept = item;
}

/// A list of at most so many values serves again.
const MOST_KEPT: usize = 8;

/// Drops a list that is longer: else each line could leave room for a list of its own length in another place, without end.
#[inline(always)]
pub fn drop_long(alloc: Global, kept: &mut List<Val>) {
    if kept.len() > MOST_KEPT {
        renew(alloc, kept);
    }
}

#[inline(never)]
fn renew(alloc: Global, kept: &mut List<Val>) {
    put(kept, List::new(alloc));
}

/// Drops the items from this place on. What the list has room for, it keeps room for.
#[inline(always)]
pub fn cut<T: Drop>(alloc: Global, kept: &mut List<T>, at: usize)
    ensures { kept.new ≡ take at kept.old }
{
    if at < kept.len() {
        shorten(alloc, kept, at);
    }
}

// The same. Most lists are as long as the ones that they are read over.
#[inline(never)]
fn shorten<T: Drop>(alloc: Global, kept: &mut List<T>, at: usize)
    ensures { kept.new ≡ take at kept.old }
{
    let mut items = mem::replace(kept, List::new(alloc)).into_vec();
    items.truncate(at);
    put(kept, List::from_vec(items));
}

/// Makes room for a value at this place.
#[inline(always)]
pub fn ready_value(kept: &mut List<Val>, at: usize) -> Result<(), AllocError>
    requires { at ≤ length kept.old }
    ensures within { OnOk result (at < length kept.new) }
    ensures before { OnOk result (take at kept.new ≡ take at kept.old) }
{
    if at == kept.len() {
        kept.push(Val::Bound(0))?;
    }
    Ok(())
}

/// Makes room for an argument at this place.
#[inline(always)]
pub fn ready_argument(kept: &mut List<Arg>, at: usize) -> Result<(), AllocError>
    requires { at ≤ length kept.old }
    ensures within { OnOk result (at < length kept.new) }
    ensures before { OnOk result (take at kept.new ≡ take at kept.old) }
{
    if at == kept.len() {
        kept.push(Arg::Num(0))?;
    }
    Ok(())
}

/// A box, that of the term if it has one. What is left of the term says nothing.
#[inline(never)]
pub fn one_box(alloc: Global, kept: &mut U) -> Result<Boxed<U>, AllocError> {
    match mem::replace(kept, U::Zero) {
        U::Squash(part) | U::Not(part) | U::Sum(part) => Ok(part),
        _ => Boxed::new(alloc, U::Zero),
    }
}

/// Two boxes, those of the term if it has two. What is left of the term says nothing.
#[inline(never)]
pub fn two_boxes(alloc: Global, kept: &mut U) -> Result<(Boxed<U>, Boxed<U>), AllocError> {
    match mem::replace(kept, U::Zero) {
        U::Add(left, right) | U::Mul(left, right) => Ok((left, right)),
        _ => {
            let left = Boxed::new(alloc, U::Zero)?;
            Ok((left, Boxed::new(alloc, U::Zero)?))
        }
    }
}

/// A list, that of the term if it has one. What is left of the term says nothing.
#[inline(never)]
pub fn list_of(alloc: Global, kept: &mut U) -> List<Val> {
    match mem::replace(kept, U::Zero) {
        U::Rel(_, values) | U::Pred(_, values) => values,
        _ => List::new(alloc),
    }
}

/// A term, that of the argument if it has one. What is left of the argument says nothing.
#[inline(never)]
pub fn term_of(kept: &mut Arg) -> U {
    match mem::replace(kept, Arg::Num(0)) {
        Arg::Term(term) | Arg::Body(term) => term,
        _ => U::Zero,
    }
}
