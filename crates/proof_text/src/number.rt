//! Numbers of 32 bits, without leading zeros.
ghost use Rattle.std.specs.Prelude.{◌≡◌, ◌≤◌, ◌<◌, ◌*◌, ◌+◌, Option, Some, None, Ok, IfOk, IsErrOf};
ghost use Rattle.proof_text.specs.Reading.{Gives, count_at, longest_at, number_at, turns_at};
ghost use Rattle.proof_text.specs.NumberSteps.{Longer};

use crate::cursor::{Cursor, Stop};
use crate::sign::code;

// The number with one digit more, if it stands next.
#[inline(always)]
fn longer(cursor: &mut Cursor<'_>, value: u32) -> Option<u32>
    ensures { Longer value cursor.old result cursor.new }
{
    let digit = cursor.digit()?;
    let value = 10 * u64::from(value) + u64::from(digit);
    if value > u64::from(u32::MAX) {
        return None;
    }
    cursor.pass();
    Some(value as u32)
}

// The longest number that goes on from this one.
#[tactic(auto, using(crate::proofs::reading::Loops::goes_on, crate::proofs::reading::Loops::ends, crate::proofs::reading::Loops::fewer, crate::proofs::reading::Loops::greater))]
#[inline(never)]
fn longest(cursor: &mut Cursor<'_>, first: u32) -> u32
    ensures longest { longest_at first cursor.old ≡ (Ok result, cursor.new) }
    ensures above { first ≤ result }
{
    let mut value = first;
    while let Some(more) = longer(cursor, value) {
        value = more;
    }
    value
}

// The longest number that goes on from this one. Most numbers have one digit.
#[inline(always)]
#[tactic(auto, using(crate::proofs::reading::Digits::alone))]
fn most_often_alone(cursor: &mut Cursor<'_>, first: u32) -> u32
    ensures longest { longest_at first cursor.old ≡ (Ok result, cursor.new) }
    ensures above { first ≤ result }
{
    match cursor.digit() {
        Some(_) => longest(cursor, first),
        None => first,
    }
}

/// The longest number that begins here.
#[inline(always)]
#[tactic(auto, unfolding(crate::specs::Reading::number_at))]
pub fn number(cursor: &mut Cursor<'_>) -> Result<u32, Stop>
    ensures gives { Gives result cursor.new (number_at cursor.old) }
    ensures no_memory { IsErrOf result Stop.NoMemory → ⊥ }
{
    let Some(first) = cursor.digit() else {
        return Err(Stop::Unexpected);
    };
    cursor.pass();
    if first == 0 {
        return Ok(0);
    }
    Ok(most_often_alone(cursor, first))
}

// The longest number of at least 2 that begins here.
#[tactic(auto, unfolding(crate::specs::Reading::count_at))]
fn count(cursor: &mut Cursor<'_>) -> Result<u32, Stop>
    ensures gives { Gives result cursor.new (count_at cursor.old) }
    ensures some { IfOk result (λ n. 1 ≤ n) }
{
    let first = code(cursor.peek());
    if first == 0 || first >= 10 {
        return Err(Stop::Unexpected);
    }
    cursor.pass();
    if first == 1 && code(cursor.peek()) >= 10 {
        return Err(Stop::Unexpected);
    }
    Ok(longest(cursor, u32::from(first)))
}

/// How often a run takes its turn: once, or as often as the count says that stands here.
pub fn turns(cursor: &mut Cursor<'_>) -> Result<u32, Stop>
    ensures gives { Gives result cursor.new (turns_at cursor.old) }
    ensures some { IfOk result (λ n. 1 ≤ n) }
{
    let next = code(cursor.peek());
    if 0 < next && next < 10 {
        count(cursor)
    } else {
        Ok(1)
    }
}
