//! Arguments of steps, read over kept ones.
ghost use Rattle.std.specs.Prelude.{◌≡◌};
ghost use Rattle.proof_text.specs.Reading.{argument_at, arguments_at};
ghost use Rattle.proof_text.specs.declared.kinds.Kind.TheVariants as kind;
ghost use Rattle.u_rules.specs.declared.rule.Arg.TheVariants as arg;
ghost use Rattle.proof_text.specs.Over.{GivesOver};

use crate::cursor::{Cursor, Stop};
use crate::kept::{cut, put, ready_argument, term_of};
use crate::kinds::Kind;
use crate::limits::MOST_DEPTH;
use crate::number::number;
use crate::sign::Sign;
use crate::term::{term, value, values};
use std::alloc::Global;
use u_rules::Arg;
use u_terms::{List, Val};

// The argument that begins here.
#[inline(always)]
fn argument(alloc: Global, cursor: &mut Cursor<'_>, kind: Kind, kept: &mut Arg) -> Result<(), Stop>
    ensures { GivesOver result kept.new cursor.new (argument_at kind cursor.old) }
{
    match kind {
        Kind::Term => closed_term(alloc, cursor, kept),
        Kind::Body => body(alloc, cursor, kept),
        Kind::Value => closed_value(alloc, cursor, kept),
        Kind::Values => closed_values(alloc, cursor, kept),
        Kind::Num => {
            cursor.refresh();
            put_number(kept, number(cursor)?);
            Ok(())
        }
    }
}

#[inline(always)]
fn closed_term(alloc: Global, cursor: &mut Cursor<'_>, kept: &mut Arg) -> Result<(), Stop>
    ensures { GivesOver result kept.new cursor.new (argument_at kind.Term cursor.old) }
{
    match kept {
        Arg::Term(kept) => {
            cursor.refresh();
            term(alloc, cursor, MOST_DEPTH, kept)
        }
        _ => new_closed_term(alloc, cursor, kept),
    }
}

// The same over another argument.
#[inline(never)]
fn new_closed_term(alloc: Global, cursor: &mut Cursor<'_>, kept: &mut Arg) -> Result<(), Stop>
    ensures { GivesOver result kept.new cursor.new (argument_at kind.Term cursor.old) }
{
    cursor.refresh();
    let mut read = term_of(kept);
    term(alloc, cursor, MOST_DEPTH, &mut read)?;
    put(kept, Arg::Term(read));
    Ok(())
}

#[inline(always)]
fn body(alloc: Global, cursor: &mut Cursor<'_>, kept: &mut Arg) -> Result<(), Stop>
    ensures { GivesOver result kept.new cursor.new (argument_at kind.Body cursor.old) }
{
    match kept {
        Arg::Body(kept) => {
            cursor.refresh();
            term(alloc, cursor, MOST_DEPTH, kept)
        }
        _ => new_body(alloc, cursor, kept),
    }
}

// The same over another argument.
#[inline(never)]
fn new_body(alloc: Global, cursor: &mut Cursor<'_>, kept: &mut Arg) -> Result<(), Stop>
    ensures { GivesOver result kept.new cursor.new (argument_at kind.Body cursor.old) }
{
    cursor.refresh();
    let mut read = term_of(kept);
    term(alloc, cursor, MOST_DEPTH, &mut read)?;
    put(kept, Arg::Body(read));
    Ok(())
}

#[inline(always)]
fn closed_value(alloc: Global, cursor: &mut Cursor<'_>, kept: &mut Arg) -> Result<(), Stop>
    ensures { GivesOver result kept.new cursor.new (argument_at kind.Value cursor.old) }
{
    match kept {
        Arg::Value(kept) => {
            cursor.refresh();
            value(alloc, cursor, MOST_DEPTH, kept)
        }
        _ => new_closed_value(alloc, cursor, kept),
    }
}

// The same over another argument.
#[inline(never)]
fn new_closed_value(alloc: Global, cursor: &mut Cursor<'_>, kept: &mut Arg) -> Result<(), Stop>
    ensures { GivesOver result kept.new cursor.new (argument_at kind.Value cursor.old) }
{
    cursor.refresh();
    let mut read = Val::Bound(0);
    value(alloc, cursor, MOST_DEPTH, &mut read)?;
    put(kept, Arg::Value(read));
    Ok(())
}

#[inline(always)]
fn closed_values(alloc: Global, cursor: &mut Cursor<'_>, kept: &mut Arg) -> Result<(), Stop>
    ensures { GivesOver result kept.new cursor.new (argument_at kind.Values cursor.old) }
{
    match kept {
        Arg::Values(kept) => {
            cursor.refresh();
            values(alloc, cursor, MOST_DEPTH, kept)
        }
        _ => new_closed_values(alloc, cursor, kept),
    }
}

// The same over another argument.
#[inline(never)]
fn new_closed_values(alloc: Global, cursor: &mut Cursor<'_>, kept: &mut Arg) -> Result<(), Stop>
    ensures { GivesOver result kept.new cursor.new (argument_at kind.Values cursor.old) }
{
    cursor.refresh();
    let mut read = List::new(alloc);
    values(alloc, cursor, MOST_DEPTH, &mut read)?;
    put(kept, Arg::Values(read));
    Ok(())
}

#[inline(always)]
fn put_number(kept: &mut Arg, read: u32)
    ensures { kept.new ≡ arg.Num read }
{
    match kept {
        Arg::Num(number) => *number = read,
        _ => put(kept, Arg::Num(read)),
    }
}

/// The arguments that begin here, each behind a space.
#[inline(always)]
pub fn arguments(
    alloc: Global,
    cursor: &mut Cursor<'_>,
    kinds: &[Kind],
    kept: &mut List<Arg>,
) -> Result<(), Stop>
    ensures { GivesOver result kept.new cursor.new (arguments_at kinds.now cursor.old) }
{
    for at in 0..kinds.len() {
        cursor.expect(Sign::Space)?;
        ready_argument(kept, at)?;
        argument(alloc, cursor, kinds[at], kept.at_mut(at))?;
    }
    cut(alloc, kept, kinds.len());
    Ok(())
}
