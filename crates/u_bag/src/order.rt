//! The order of the sums of a block, and where they go.
ghost use Rattle.std.specs.Prelude.{◌≡◌, ℕ, ◌<◌, ◌^◌, IfOk, MatchOption, Some, length, slice_get};
ghost use Rattle.u_equal.specs.Standing.{IsIn};
ghost use Rattle.u_rules.specs.Terms.{terms};
ghost use Rattle.shape_entails.specs.Turning.{AreAllPlaces};
ghost use Rattle.u_bag.specs.Shapes.{ArePairedBy, HasTooManySums};
ghost use Rattle.u_bag.specs.Order.{AreAtoms, AreBothPlaces, ArePairedRows, AreSent, AreTurnsAmong, AreWanted, IsRowSent, IsTurn, RowSends, lent_rows, rows_among};

use crate::NoMemory;
use crate::meeting::MOST_SUMS;
use std::alloc::Global;
use u_rules::leaves;
use u_simple::{inside_sums, sums_of};
use u_terms::{U, Val};

/// A block: how many sums there are around its product, and the values of each of its atoms.
#[derive(Drop)]
pub struct Atoms<'a> {
    pub sums: u32,
    pub rows: Vec<&'a [Val]>,
}

/// How the sums of the left block come into the order of the right one's, where its entries go to these of the right one: for each sum of the
/// right block, the outermost first, how many of the left one's that have no place yet stand before the one that goes there. None where there
/// are more sums than a step exchanges.
pub fn turns(
    alloc: Global,
    left: &U,
    right: &U,
    entries: &[u32],
) -> Result<Option<Vec<u32>>, NoMemory>
    requires { ArePairedBy entries.now left.now right.now }
    ensures { IfOk result (λ found. MatchOption found (HasTooManySums left.now) (λ turns. IsTurn turns.items left.now right.now)) }
{
    let Some(left) = atoms_of(alloc, left)? else {
        return Ok(None);
    };
    let Some(right) = atoms_of(alloc, right)? else {
        return Ok(None);
    };
    let mut places = sources_of(alloc, &left, &right, entries)?;
    places.reverse();
    Ok(Some(turns_by(alloc, left.sums, places.as_slice())?))
}

// The sums and the atoms of a block, unless there are too many sums.
fn atoms_of<'a>(alloc: Global, u: &'a U) -> Result<Option<Atoms<'a>>, NoMemory>
    ensures { IfOk result (λ found. MatchOption found (HasTooManySums u.now) (AreAtoms u.now)) }
{
    match sums_of(u, MOST_SUMS) {
        Some(sums) => {
            let factors = leaves(alloc, inside_sums(u, sums), true)?;
            let rows = rows_of(alloc, factors.as_slice())?;
            Ok(Some(Atoms { sums, rows }))
        }
        None => Ok(None),
    }
}

// The values of each atom among the factors.
fn rows_of<'a>(alloc: Global, factors: &[&'a U]) -> Result<Vec<&'a [Val]>, NoMemory>
    ensures { IfOk result (λ rows. lent_rows rows.items ≡ rows_among (terms factors.now)) }
{
    let mut rows = Vec::new(alloc);
    for factor in factors {
        if let U::Rel(_, values) = *factor {
            rows.push(values.as_slice())?;
        }
    }
    Ok(rows)
}

// The place of the left block that goes to each place of the right one. The innermost sum has place 0.
fn sources_of(
    alloc: Global,
    left: &Atoms<'_>,
    right: &Atoms<'_>,
    entries: &[u32],
) -> Result<Vec<u32>, NoMemory>
    requires { ArePairedRows (lent_rows left.now.rows.items) (lent_rows right.now.rows.items) entries.now right.now.sums }
    ensures { IfOk result (λ sources. AreSent (lent_rows left.now.rows.items) (lent_rows right.now.rows.items) entries.now (length entries.now) right.now.sums sources.items) }
{
    let mut sources = vec![in alloc; 0; right.sums as usize]?;
    for (row, entry) in left.rows.iter().zip(entries) {
        send_row(row, right.rows[*entry as usize], sources.as_mut_slice());
    }
    Ok(sources)
}

// The places of one row go to those of another that is as long.
fn send_row(row: &[Val], other: &[Val], sources: &mut [u32])
    requires long { length row.now ≡ length other.now }
    requires below { (from to : ℕ) → RowSends row.now other.now (length row.now) from to → to < length sources.old }
    requires one { (from another to : ℕ) → RowSends row.now other.now (length row.now) from to → RowSends row.now other.now (length row.now) another to → from ≡ another }
    ensures { IsRowSent row.now other.now (length row.now) sources.old sources.new }
{
    for (from, to) in row.iter().zip(other) {
        if let Some((from, to)) = both_places(from, to) {
            sources[to as usize] = from;
        }
    }
}

// The two places, where both values are places.
fn both_places(from: &Val, to: &Val) -> Option<(u32, u32)>
    ensures { AreBothPlaces from.now to.now result }
{
    match (from, to) {
        (Val::Bound(from), Val::Bound(to)) => Some((*from, *to)),
        _ => None,
    }
}

// Where each place that is wanted stands among those that wait, which are all of them at first.
fn turns_by(alloc: Global, sums: u32, wanted: &[u32]) -> Result<Vec<u32>, NoMemory>
    requires wanted { AreWanted sums wanted.now }
    ensures { IfOk result (λ turns. AreTurnsAmong sums wanted.now turns.items) }
{
    let mut waiting = all_places(alloc, sums)?;
    let mut turns = Vec::with_capacity(alloc, wanted.len())?;
    for place in wanted {
        let before = standing(waiting.as_slice(), *place);
        waiting.remove(before as usize);
        turns.push(before)?;
    }
    Ok(turns)
}

// All places of so many sums, the outermost first.
fn all_places(alloc: Global, sums: u32) -> Result<Vec<u32>, NoMemory>
    ensures { IfOk result (λ places. AreAllPlaces sums places.items) }
{
    let mut places: Vec<u32> = (0..sums).collect(alloc)?;
    places.reverse();
    Ok(places)
}

// How many of those that wait stand before this one of them.
fn standing(waiting: &[u32], place: u32) -> u32
    requires few { length waiting.now < 2 ^ 32 }
    requires waits { IsIn place waiting.now }
    ensures { slice_get waiting.now result ≡ Some place }
{
    let mut before: u32 = 0;
    for other in waiting {
        if *other == place {
            return before;
        }
        before += 1;
    }
    before
}
