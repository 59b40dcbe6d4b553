//! The sides that a rule has for some arguments, found and not yet written.
ghost use Rattle.std.specs.Prelude.{◌≡◌, MatchOption, nat_lt, length, true, false};
ghost use Rattle.u_terms.specs.declared.facts.Facts.{Facts as TheFacts};
ghost use Rattle.u_rules.specs.Answers.{Finds};
ghost use Rattle.u_rules.specs.Rows.{row};
ghost use Rattle.u_rules.specs.Templates.{template_row};
ghost use Rattle.u_rules.specs.Terms as terms;
ghost use Rattle.u_rules.specs.declared.rule.Rule.TheVariants as rule;

use crate::faults::{Misfit, Unfit};
use crate::forms::Template;
use crate::holes::fit;
use crate::rule::{Arg, Rule};
use crate::table::{Entry, entry_of};
use u_terms::{Facts, Fkey, U, Val};

/// The most sums that `sum_swap` exchanges.
const MOST_SUMS: u64 = 2_048;

/// What both sides are made of.
#[derive(Clone, Copy)]
pub enum Found<'a> {
    /// Sides that are data, and the arguments for their holes.
    Plain(&'static Template<'static>, &'a [Arg]),
    /// Two groups of sums around a body: how many are in the outer and in the inner one.
    SumSwap(u32, u32, &'a U),
    /// A table, the columns of its key, and two rows of it.
    Key(u32, &'a [u32], &'a [Val], &'a [Val]),
    /// A foreign key, the width of the table that it refers to, and a row of its own table.
    Fkey(&'a Fkey, u32, &'a [Val]),
}

/// The sides, or why the arguments do not fit, whether they are closed or not.
pub fn find<'a>(facts: &'a Facts, rule: Rule, args: &'a [Arg]) -> Result<Found<'a>, Unfit>
    ensures { Finds (row facts.now rule args.now) result }
{
    match entry_of(rule) {
        Entry::Plain(template) => plain(template, args),
        Entry::SumSwap => sum_swap(args),
        Entry::Key => key(facts, args),
        Entry::Fkey => fkey(facts, args),
    }
}

fn plain<'a>(template: &'static Template<'static>, args: &'a [Arg]) -> Result<Found<'a>, Unfit>
    ensures { Finds (template_row template.now args.now) result }
{
    if fit(template.kinds, args) {
        Ok(Found::Plain(template, args))
    } else {
        Err(Unfit::ArgKinds)
    }
}

fn sum_swap<'a>(args: &'a [Arg]) -> Result<Found<'a>, Unfit>
    ensures { (F : TheFacts) → Finds (row F rule.SumSwap args.now) result }
{
    match args {
        [Arg::Num(outer), Arg::Num(inner), Arg::Body(body)] => {
            let count = u64::from(*outer) + u64::from(*inner);
            if !(0 < *outer && 0 < *inner && count <= MOST_SUMS) {
                return Err(Unfit::Wrong(Misfit::ZeroCount));
            }
            Ok(Found::SumSwap(*outer, *inner, body))
        }
        _ => Err(Unfit::ArgKinds),
    }
}

fn key<'a>(facts: &'a Facts, args: &'a [Arg]) -> Result<Found<'a>, Unfit>
    ensures { Finds (row facts.now rule.Key args.now) result }
{
    match args {
        [
            Arg::Num(table),
            Arg::Num(number),
            Arg::Values(one),
            Arg::Values(other),
        ] => {
            if *table as usize >= facts.widths.len() {
                return Err(Unfit::Wrong(Misfit::NoSuchTable));
            }
            match key_columns(facts, *table, *number) {
                None => Err(Unfit::Wrong(Misfit::NoSuchKey)),
                Some(key) => {
                    let count = width(facts, *table) as usize;
                    if !(one.len() == count && other.len() == count) {
                        return Err(Unfit::Wrong(Misfit::WidthDiffers));
                    }
                    Ok(Found::Key(*table, key, one.as_slice(), other.as_slice()))
                }
            }
        }
        _ => Err(Unfit::ArgKinds),
    }
}

fn fkey<'a>(facts: &'a Facts, args: &'a [Arg]) -> Result<Found<'a>, Unfit>
    ensures { Finds (row facts.now rule.Fkey args.now) result }
{
    match args {
        [Arg::Num(number), Arg::Values(row)] => {
            match facts.fkeys.as_slice().get(*number as usize) {
                None => Err(Unfit::Wrong(Misfit::NoSuchFkey)),
                Some(fkey) => {
                    if row.len() != width(facts, fkey.from) as usize {
                        return Err(Unfit::Wrong(Misfit::WidthDiffers));
                    }
                    Ok(Found::Fkey(fkey, width(facts, fkey.to), row.as_slice()))
                }
            }
        }
        _ => Err(Unfit::ArgKinds),
    }
}

// That of a table; 0 where there is none of that number.
fn width(facts: &Facts, table: u32) -> u32
    ensures { result ≡ terms.width facts.now table }
{
    match facts.widths.as_slice().get(table as usize) {
        Some(width) => *width,
        None => 0,
    }
}

fn key_columns<'a>(facts: &'a Facts, table: u32, number: u32) -> Option<&'a [u32]>
    ensures { MatchOption result (nat_lt number (length (terms.keys_of facts.now table)) ≡ false) (λ k. (nat_lt number (length (terms.keys_of facts.now table)) ≡ true) × (k.now ≡ terms.key_columns facts.now table number)) }
{
    match facts.keys.as_slice().get(table as usize) {
        Some(keys) => match keys.as_slice().get(number as usize) {
            Some(columns) => Some(columns.as_slice()),
            None => None,
        },
        None => None,
    }
}
