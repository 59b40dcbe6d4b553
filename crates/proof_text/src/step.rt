//! Lines, from their first byte to their last.
ghost use Rattle.std.specs.Prelude.{◌≡◌};
ghost use Rattle.u_deriv.specs.declared.step.Step.{out-Step};
ghost use Rattle.proof_text.specs.Grammar.{made};
ghost use Rattle.proof_text.specs.Over.{line_over, said_over};
ghost use Rattle.proof_text.specs.Reading.{Gives, alone, direction_at, end_at, line_at, step_at};

use crate::argument::arguments;
use crate::cursor::{Cursor, Stop};
use crate::kept::cut;
use crate::kinds::{has_inner, kinds_of};
use crate::line::LineKind;
use crate::path::path;
use crate::rule_name::{rule, word};
use crate::sign::Sign;
use std::alloc::Global;
use u_deriv::{Path, Step};
use u_rules::Rule;

#[inline(always)]
fn direction(cursor: &mut Cursor<'_>) -> Result<bool, Stop>
    ensures { Gives result cursor.new (direction_at cursor.old) }
{
    if cursor.take(Sign::Forward) {
        return Ok(true);
    }
    cursor.expect(Sign::Backward)?;
    Ok(false)
}

// The end of the line of a step.
#[inline(always)]
fn end_of_line(cursor: &mut Cursor<'_>, inner: bool) -> Result<(), Stop>
    ensures { Gives result cursor.new (end_at inner cursor.old) }
{
    if inner {
        word(cursor, b" {")?;
    }
    cursor.expect(Sign::Newline)
}

// What the line of a step says, in the kept one, which has its arguments.
#[inline(always)]
fn put_step(alloc: Global, kept: &mut Step, path: Path, forward: bool, rule: Rule) -> LineKind
    ensures { line_over result kept.new ≡ made path forward rule (out-Step kept.old).args }
{
    kept.path = path;
    kept.forward = forward;
    kept.rule = rule;
    cut(alloc, &mut kept.inner, 0);
    if has_inner(rule) {
        LineKind::Opens
    } else {
        LineKind::Whole
    }
}

// The line of a step, behind its slash.
#[tactic(auto, unfolding(crate::specs::Reading::step_at))]
#[inline(always)]
fn step(alloc: Global, cursor: &mut Cursor<'_>, kept: &mut Step) -> Result<LineKind, Stop>
    ensures { Gives (said_over result kept.new) cursor.new (step_at cursor.old) }
{
    let path = path(alloc, cursor)?;
    cursor.expect(Sign::Space)?;
    let forward = direction(cursor)?;
    cursor.expect(Sign::Space)?;
    let rule = rule(cursor)?;
    arguments(alloc, cursor, kinds_of(rule), &mut kept.args)?;
    end_of_line(cursor, has_inner(rule))?;
    Ok(put_step(alloc, kept, path, forward, rule))
}

#[tactic(auto, unfolding(crate::specs::Reading::line_at))]
#[inline(always)]
fn line(alloc: Global, cursor: &mut Cursor<'_>, kept: &mut Step) -> Result<LineKind, Stop>
    ensures { Gives (said_over result kept.new) cursor.new (line_at cursor.old) }
{
    if cursor.take(Sign::Slash) {
        return step(alloc, cursor, kept);
    }
    if cursor.take(Sign::CloseBrace) {
        cursor.expect(Sign::Newline)?;
        return Ok(LineKind::Closes);
    }
    word(cursor, b"end")?;
    cursor.expect(Sign::Newline)?;
    Ok(LineKind::Ends)
}

/// The line that is all that is left, its step over the kept one.
#[inline(always)]
pub fn whole_line(alloc: Global, cursor: &mut Cursor<'_>, kept: &mut Step) -> Result<LineKind, Stop>
    ensures { Gives (said_over result kept.new) cursor.new (alone line_at cursor.old) }
{
    let kind = line(alloc, cursor, kept)?;
    if cursor.left() > 0 {
        return Err(Stop::Unexpected);
    }
    Ok(kind)
}
