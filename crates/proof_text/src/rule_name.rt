//! The names of rules, told apart letter by letter.
ghost use Rattle.proof_text.specs.Reading.{Gives, rule_at, word_at};
ghost use Rattle.proof_text.specs.RuleNames.{eq_names, found, mul_names, names, not_names, s_names, squash_names, sum_names, word};

use crate::cursor::{Cursor, Stop};
use crate::sign::{Sign, sign_of};
use u_rules::Rule;

/// Passes these bytes.
#[inline(always)]
pub fn word(cursor: &mut Cursor<'_>, bytes: &[u8]) -> Result<(), Stop>
    ensures { Gives result cursor.new (word_at bytes.now cursor.old) }
{
    if cursor.take_all(bytes) {
        return Ok(());
    }
    letters(cursor, bytes)
}

// The same, byte by byte: where not all stand next, that tells which is the first that does not.
#[inline(never)]
fn letters(cursor: &mut Cursor<'_>, bytes: &[u8]) -> Result<(), Stop>
    ensures { Gives result cursor.new (word_at bytes.now cursor.old) }
{
    for byte in bytes {
        cursor.expect(sign_of(*byte))?;
    }
    Ok(())
}

// The rule whose name goes on with these bytes.
#[tactic(auto, unfolding(crate::specs::Reading::rule_at))]
#[inline(always)]
fn named(cursor: &mut Cursor<'_>, bytes: &[u8], rule: Rule) -> Result<Rule, Stop>
    ensures { Gives result cursor.new (rule_at (word bytes.now (found rule)) cursor.old) }
{
    word(cursor, bytes)?;
    Ok(rule)
}

// Behind `mul_`.
#[tactic(auto, unfolding(crate::specs::Reading::rule_at, crate::specs::RuleNames::mul_names))]
fn mul_rule(cursor: &mut Cursor<'_>) -> Result<Rule, Stop>
    ensures { Gives result cursor.new (rule_at mul_names cursor.old) }
{
    if cursor.take(Sign::SmallA) {
        named(cursor, b"c", Rule::MulAc)
    } else {
        named(cursor, b"zero", Rule::MulZero)
    }
}

// Behind `sq_`.
#[tactic(auto, unfolding(crate::specs::Reading::rule_at, crate::specs::RuleNames::squash_names))]
fn squash_rule(cursor: &mut Cursor<'_>) -> Result<Rule, Stop>
    ensures { Gives result cursor.new (rule_at squash_names cursor.old) }
{
    if cursor.take(Sign::SmallZ) {
        named(cursor, b"ero", Rule::SqZero)
    } else if cursor.take(Sign::SmallO) {
        named(cursor, b"ne", Rule::SqOne)
    } else if cursor.take(Sign::SmallA) {
        if cursor.take(Sign::SmallD) {
            named(cursor, b"d", Rule::SqAdd)
        } else {
            named(cursor, b"bs", Rule::SqAbs)
        }
    } else if cursor.take(Sign::SmallM) {
        named(cursor, b"ul", Rule::SqMul)
    } else if cursor.take(Sign::SmallD) {
        named(cursor, b"up", Rule::SqDup)
    } else if cursor.take(Sign::SmallF) {
        named(cursor, b"ix", Rule::SqFix)
    } else if cursor.take(Sign::SmallP) {
        if cursor.take(Sign::SmallA) {
            named(cursor, b"rt", Rule::SqPart)
        } else {
            named(cursor, b"red", Rule::SqPred)
        }
    } else if cursor.take(Sign::SmallE) {
        named(cursor, b"q", Rule::SqEq)
    } else {
        named(cursor, b"not", Rule::SqNot)
    }
}

// Behind `sum_`.
#[tactic(auto, unfolding(crate::specs::Reading::rule_at, crate::specs::RuleNames::sum_names))]
fn sum_rule(cursor: &mut Cursor<'_>) -> Result<Rule, Stop>
    ensures { Gives result cursor.new (rule_at sum_names cursor.old) }
{
    if cursor.take(Sign::SmallZ) {
        named(cursor, b"ero", Rule::SumZero)
    } else if cursor.take(Sign::SmallA) {
        named(cursor, b"dd", Rule::SumAdd)
    } else if cursor.take(Sign::SmallS) {
        if cursor.take(Sign::SmallW) {
            named(cursor, b"ap", Rule::SumSwap)
        } else {
            named(cursor, b"q", Rule::SumSq)
        }
    } else if cursor.take(Sign::SmallM) {
        named(cursor, b"ul", Rule::SumMul)
    } else if cursor.take(Sign::SmallP) {
        named(cursor, b"oint", Rule::SumPoint)
    } else {
        named(cursor, b"use", Rule::SumUse)
    }
}

// Behind `not_`.
#[tactic(auto, unfolding(crate::specs::Reading::rule_at, crate::specs::RuleNames::not_names))]
fn not_rule(cursor: &mut Cursor<'_>) -> Result<Rule, Stop>
    ensures { Gives result cursor.new (rule_at not_names cursor.old) }
{
    if cursor.take(Sign::SmallZ) {
        named(cursor, b"ero", Rule::NotZero)
    } else if cursor.take(Sign::SmallO) {
        named(cursor, b"ne", Rule::NotOne)
    } else if cursor.take(Sign::SmallM) {
        named(cursor, b"ul", Rule::NotMul)
    } else if cursor.take(Sign::SmallA) {
        named(cursor, b"dd", Rule::NotAdd)
    } else if cursor.take(Sign::SmallS) {
        if cursor.take(Sign::SmallQ) {
            Ok(Rule::NotSq)
        } else {
            named(cursor, b"elf", Rule::NotSelf)
        }
    } else {
        named(cursor, b"not", Rule::NotNot)
    }
}

// Behind `eq_`.
#[tactic(auto, unfolding(crate::specs::Reading::rule_at, crate::specs::RuleNames::eq_names))]
fn eq_rule(cursor: &mut Cursor<'_>) -> Result<Rule, Stop>
    ensures { Gives result cursor.new (rule_at eq_names cursor.old) }
{
    if cursor.take(Sign::SmallR) {
        return named(cursor, b"efl", Rule::EqRefl);
    }
    word(cursor, b"s")?;
    if cursor.take(Sign::SmallY) {
        named(cursor, b"m", Rule::EqSym)
    } else if cursor.take(Sign::SmallU) {
        named(cursor, b"bst", Rule::EqSubst)
    } else {
        named(cursor, b"plit", Rule::EqSplit)
    }
}

// Behind `s`.
#[tactic(auto, unfolding(crate::specs::Reading::rule_at, crate::specs::RuleNames::s_names))]
fn s_rule(cursor: &mut Cursor<'_>) -> Result<Rule, Stop>
    ensures { Gives result cursor.new (rule_at s_names cursor.old) }
{
    if cursor.take(Sign::SmallQ) {
        word(cursor, b"_")?;
        squash_rule(cursor)
    } else if cursor.take(Sign::SmallP) {
        named(cursor, b"lit", Rule::Split)
    } else {
        word(cursor, b"um_")?;
        sum_rule(cursor)
    }
}

/// The rule whose name stands here.
#[tactic(auto, unfolding(crate::specs::Reading::rule_at, crate::specs::RuleNames::names))]
pub fn rule(cursor: &mut Cursor<'_>) -> Result<Rule, Stop>
    ensures { Gives result cursor.new (rule_at names cursor.old) }
{
    if cursor.take(Sign::SmallA) {
        named(cursor, b"dd_ac", Rule::AddAc)
    } else if cursor.take(Sign::SmallM) {
        word(cursor, b"ul_")?;
        mul_rule(cursor)
    } else if cursor.take(Sign::SmallD) {
        named(cursor, b"istr", Rule::Distr)
    } else if cursor.take(Sign::SmallS) {
        s_rule(cursor)
    } else if cursor.take(Sign::SmallN) {
        word(cursor, b"ot_")?;
        not_rule(cursor)
    } else if cursor.take(Sign::SmallE) {
        word(cursor, b"q_")?;
        eq_rule(cursor)
    } else if cursor.take(Sign::SmallK) {
        named(cursor, b"ey", Rule::Key)
    } else {
        named(cursor, b"fkey", Rule::Fkey)
    }
}
