//! The search itself: lists of entries, one longer at each turn, as long as they fit and the budget lasts.
ghost use Rattle.std.specs.Prelude.{◌≡◌, ◌-◌, ◌<◌, ◌^◌, true, IfOk, length};
ghost use Rattle.shapes.specs.Shapes.{IsWhole};
ghost use Rattle.shapes.specs.Tests as shapes;
ghost use Rattle.shapes.specs.Tried.{search_alike};
ghost use Rattle.bag_search.specs.Answers as spec;
ghost use Rattle.bag_search.specs.Answers.{Answers, Matches, Says, outcome};
ghost use Rattle.bag_search.specs.Entries as entries;
ghost use Rattle.bag_search.specs.Entries.{AreSides};
ghost use Rattle.bag_search.specs.Known.{AreKnown};
ghost use Rattle.bag_search.specs.Searches.{CanGoOn, CanBeTried};

use crate::carried::{inverse_of, marks_carried, outputs_carried};
use crate::points::{Side, merges_of};
use crate::sides::{Sides, Step, literals_alike, literals_of};
use crate::tables::{Known, entry_goes, nothing_known, pair_goes};
use plain_data::List;
use shapes::Shape;
use std::alloc::{AllocError, Global};

/// How a search ends.
#[derive(Drop)]
pub enum Match {
    /// The entry of the second shape for each entry of the first.
    Found(List<u32>),
    /// The two are not alike.
    Nothing,
    /// The budget was spent before this was known.
    Spent,
}

/// How a search from a list on ends; the list that was found is the one that it is at.
#[derive(Clone, Copy, Drop)]
pub enum Answer {
    Found,
    Nothing,
    Spent,
}

fn has(list: &[u32], x: u32) -> bool
    ensures { result ≡ shapes.has x list.now }
{
    list.iter().any(|y| x == *y)
}

/// Whether the entries of a list may go there together with one more.
fn goes_with(sides: &Sides, known: &mut Known, list: &[u32], next: Step) -> bool
    requires sides { AreSides sides.now }
    requires known { AreKnown sides.now known.old }
    requires small { length list.now < 2 ^ 32 }
    ensures answer { result ≡ entries.fits_with sides.now.left.shape.now sides.now.right.shape.now 0 list.now next.entry next.to }
    ensures known { AreKnown sides.now known.new }
{
    let mut entry: u32 = 0;
    for to in list {
        if !pair_goes(sides, known, Step { entry, to: *to }, next) {
            return false;
        }
        entry += 1;
    }
    true
}

/// Whether a list that fits still does with x after it.
fn goes_on(sides: &Sides, known: &mut Known, list: &[u32], x: u32) -> bool
    requires sides { AreSides sides.now }
    requires known { AreKnown sides.now known.old }
    requires small { length list.now < 2 ^ 32 }
    ensures answer { result ≡ entries.fits_next sides.now.left.shape.now sides.now.right.shape.now list.now x }
    ensures known { AreKnown sides.now known.new }
{
    let next = Step {
        entry: list.len() as u32,
        to: x,
    };
    entry_goes(sides, known, next) && goes_with(sides, known, list, next)
}

/// Whether a list that fits makes the shapes alike.
fn makes_alike(alloc: Global, sides: &Sides, list: &[u32]) -> Result<bool, AllocError>
    requires sides { AreSides sides.now }
    requires small { length list.now < 2 ^ 32 }
    requires fits { shapes.fits sides.now.left.shape.now sides.now.right.shape.now list.now ≡ true }
    ensures { IfOk result (λ yes. yes ≡ shapes.makes_alike sides.now.left.shape.now sides.now.right.shape.now list.now) }
{
    let Sides { left, right, .. } = sides;
    if !outputs_carried(left.shape, right, list) || !marks_carried(left.shape, right, list) {
        return Ok(false);
    }
    let back = inverse_of(alloc, list)?;
    Ok(marks_carried(right.shape, left, back.as_slice()))
}

/// The lists that go on from the chosen one. It is as it was where none of them is wanted.
#[cycle(search)]
fn go(
    alloc: Global,
    sides: &Sides,
    known: &mut Known,
    chosen: &mut Vec<u32>,
    left: &mut u64,
) -> Result<Answer, AllocError>
    requires can { CanGoOn sides.now known.old chosen.old.items }
    ensures answer { IfOk result (λ answer. Answers (outcome sides.now.left.shape.now sides.now.right.shape.now (length sides.now.left.shape.now.entries - length chosen.old.items - 1) chosen.old.items) left.old answer left.new chosen.old.items chosen.new.items) }
    ensures known { IfOk result (λ answer. AreKnown sides.now known.new) }
{
    for x in 0..sides.right.shape.entries.len() as u32 {
        if has(chosen.as_slice(), x) {
            continue;
        }
        if *left == 0 {
            return Ok(Answer::Spent);
        }
        *left -= 1;
        if !goes_on(sides, known, chosen.as_slice(), x) {
            continue;
        }
        chosen.push(x)?;
        match further(alloc, sides, known, chosen, left)? {
            Answer::Nothing => {
                let shorter = chosen.len() - 1;
                chosen.truncate(shorter);
            }
            Answer::Found => return Ok(Answer::Found),
            Answer::Spent => return Ok(Answer::Spent),
        }
    }
    Ok(Answer::Nothing)
}

/// The chosen list itself where it is long enough, and else those that go on from it.
#[cycle(search)]
fn further(
    alloc: Global,
    sides: &Sides,
    known: &mut Known,
    chosen: &mut Vec<u32>,
    left: &mut u64,
) -> Result<Answer, AllocError>
    requires can { CanBeTried sides.now known.old chosen.old.items }
    ensures answer { IfOk result (λ answer. Answers (spec.further sides.now.left.shape.now sides.now.right.shape.now (length sides.now.left.shape.now.entries - length chosen.old.items) chosen.old.items) left.old answer left.new chosen.old.items chosen.new.items) }
    ensures known { IfOk result (λ answer. AreKnown sides.now known.new) }
{
    if chosen.len() < sides.left.shape.entries.len() {
        return go(alloc, sides, known, chosen, left);
    }
    if makes_alike(alloc, sides, chosen.as_slice())? {
        return Ok(Answer::Found);
    }
    Ok(Answer::Nothing)
}

/// The search of two shapes with as many entries, from the empty list on.
fn search_all(alloc: Global, sides: &Sides, budget: u64) -> Result<Match, AllocError>
    requires sides { AreSides sides.now }
    requires as_many { length sides.now.left.shape.now.entries ≡ length sides.now.right.shape.now.entries }
    ensures { IfOk result (λ found. Matches (search_alike sides.now.left.shape.now sides.now.right.shape.now) budget found) }
{
    if !literals_alike(sides) {
        return Ok(Match::Nothing);
    }
    let Ok(entries) = u32::try_from(sides.left.shape.entries.len()) else {
        return Err(AllocError);
    };
    let mut known = nothing_known(alloc, sides, entries)?;
    let mut chosen = Vec::with_capacity(alloc, entries as usize)?;
    let mut left = budget;
    match further(alloc, sides, &mut known, &mut chosen, &mut left)? {
        Answer::Found => Ok(Match::Found(List::from_vec(chosen))),
        Answer::Nothing => Ok(Match::Nothing),
        Answer::Spent => Ok(Match::Spent),
    }
}

/// Looks for a pairing of the entries of two shapes that makes them alike, by the lists that `tried` counts, as long as there are
/// no more of them than the budget has. Shapes of 2 ^ 32 entries and more are too many for memory.
pub fn match_shapes(alloc: Global, s: &Shape, t: &Shape, budget: u64) -> Result<Match, AllocError>
    ensures matched { IfOk result (λ found. Matches (search_alike s.now t.now) budget found) }
    ensures whole { IsWhole s.now → IsWhole t.now → IfOk result (λ found. Says s.now t.now budget found) }
{
    if s.entries.len() != t.entries.len() {
        return Ok(Match::Nothing);
    }
    let in_s = merges_of(alloc, s.equalities.as_slice())?;
    let in_t = merges_of(alloc, t.equalities.as_slice())?;
    let literals = literals_of(alloc, s, t)?;
    let sides = Sides {
        left: Side {
            shape: s,
            merges: in_s.as_slice(),
        },
        right: Side {
            shape: t,
            merges: in_t.as_slice(),
        },
        literals: literals.as_slice(),
    };
    search_all(alloc, &sides, budget)
}
