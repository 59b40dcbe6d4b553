//! What two products differ in.
ghost use Rattle.std.specs.Prelude.{IfOk};
ghost use Rattle.u_rules.specs.Terms.{terms};
ghost use Rattle.u_bag.specs.Rows.{AreDifferences, IsPlaceOf};

use crate::NoMemory;
use std::alloc::Global;
use u_terms::{U, same};

/// The factors of each of two products that the other one lacks.
#[derive(Drop)]
pub struct Differences<'a> {
    pub left: Vec<&'a U>,
    pub right: Vec<&'a U>,
}

/// Each factor counts as often as it stands there. They keep their order.
pub fn differences_of<'a>(
    alloc: Global,
    left: &[&'a U],
    right: &[&'a U],
) -> Result<Differences<'a>, NoMemory>
    ensures { IfOk result (AreDifferences (terms left.now) (terms right.now)) }
{
    let mut only_left: Vec<&U> = left.iter().copied().collect(alloc)?;
    let mut only_right = Vec::new(alloc);
    for factor in right {
        match place_of(factor, only_left.as_slice()) {
            Some(place) => {
                only_left.remove(place);
            }
            None => only_right.push(*factor)?,
        }
    }
    Ok(Differences {
        left: only_left,
        right: only_right,
    })
}

// Where a factor stands first among others, if it does.
fn place_of(factor: &U, others: &[&U]) -> Option<usize>
    ensures { IsPlaceOf factor.now (terms others.now) result }
{
    for (place, other) in others.iter().enumerate() {
        if same(other, factor) {
            return Some(place);
        }
    }
    None
}
