//! Tests of entries that are made once, when they are first asked for.
ghost use Rattle.std.specs.Prelude.{◌≡◌, IfOk, IfSome, Some, slice_get, slice_set};
ghost use Rattle.bag_search.specs.Entries as spec;
ghost use Rattle.bag_search.specs.Entries.{AreSides};
ghost use Rattle.bag_search.specs.Known.{IsPlace, IsPairPlace, AreKnown};

use crate::sides::{Sides, Step, entry_fits, pair_fits};
use std::alloc::{AllocError, Global};

/// Shapes of at most so many entries have tables: an entry and where it goes are a place of two digits to this base, two such
/// steps are one of four.
const BASE: u32 = 16;

/// The answers of the tests that were made, by place.
#[derive(Drop)]
pub struct Known {
    entries: Vec<Option<bool>>,
    pairs: Vec<Option<bool>>,
}

/// The place of a step.
fn place(step: Step) -> Option<usize>
    ensures { IfSome result (IsPlace step) }
{
    if step.entry < BASE && step.to < BASE {
        Some((step.entry * BASE + step.to) as usize)
    } else {
        None
    }
}

/// The place of two steps, the later entry first.
fn pair_place(one: Step, other: Step) -> Option<usize>
    ensures { IfSome result (IsPairPlace one other) }
{
    let low = place(one)?;
    let high = place(other)?;
    Some(high * (BASE * BASE) as usize + low)
}

fn recall(cells: &[Option<bool>], place: usize) -> Option<bool>
    ensures { IfSome result (λ answer. slice_get cells.now place ≡ Some (Some answer)) }
{
    match cells.get(place) {
        Some(cell) => *cell,
        None => None,
    }
}

fn keep(cells: &mut Vec<Option<bool>>, place: usize, answer: bool)
    ensures { cells.new.items ≡ slice_set cells.old.items place (Some answer) }
{
    if place < cells.len() {
        cells[place] = Some(answer);
    }
}

/// Tables for shapes of so many entries, in which nothing is known.
#[tactic(auto, using(crate::proofs::KnownLaws::laws))]
pub fn nothing_known(alloc: Global, sides: &Sides, entries: u32) -> Result<Known, AllocError>
    ensures { IfOk result (λ known. AreKnown sides.now known) }
{
    let steps = if entries <= BASE {
        (entries * BASE) as usize
    } else {
        0
    };
    Ok(Known {
        entries: vec![in alloc; None; steps]?,
        pairs: vec![in alloc; None; steps * (BASE * BASE) as usize]?,
    })
}

/// Whether an entry may go where it goes, by a look-up where that is known.
#[tactic(auto, using(crate::proofs::KnownLaws::laws))]
pub fn entry_goes(sides: &Sides, known: &mut Known, step: Step) -> bool
    requires sides { AreSides sides.now }
    requires known { AreKnown sides.now known.old }
    ensures answer { result ≡ spec.entry_fits sides.now.left.shape.now sides.now.right.shape.now step.entry step.to }
    ensures known { AreKnown sides.now known.new }
{
    let Some(place) = place(step) else {
        return entry_fits(sides, step);
    };
    if let Some(answer) = recall(known.entries.as_slice(), place) {
        return answer;
    }
    let answer = entry_fits(sides, step);
    keep(&mut known.entries, place, answer);
    answer
}

/// Whether two entries may go where they go both, by a look-up where that is known.
#[tactic(auto, using(crate::proofs::KnownLaws::laws))]
pub fn pair_goes(sides: &Sides, known: &mut Known, one: Step, other: Step) -> bool
    requires sides { AreSides sides.now }
    requires known { AreKnown sides.now known.old }
    ensures answer { result ≡ spec.pair_fits sides.now.left.shape.now sides.now.right.shape.now one.entry one.to other.entry other.to }
    ensures known { AreKnown sides.now known.new }
{
    let Some(place) = pair_place(one, other) else {
        return pair_fits(sides, one, other);
    };
    if let Some(answer) = recall(known.pairs.as_slice(), place) {
        return answer;
    }
    let answer = pair_fits(sides, one, other);
    keep(&mut known.pairs, place, answer);
    answer
}
