//! Terms written as lists of numbers. Each kind of node has a number of its own, its parts follow from left to right, and in a list of
//! values a 1 stands before each and a 0 behind the last.
ghost use Rattle.std.specs.Prelude.{◌≡◌, ◌++◌, IfOk, OnOk};
ghost use Rattle.u_rules.specs.Codes.{code, list_code, value_code};

use std::alloc::{AllocError, Global};
use u_terms::{U, Val};

/// No two terms have one code.
pub fn code_of(alloc: Global, term: &U) -> Result<Vec<u32>, AllocError>
    ensures { IfOk result (λ numbers. numbers.items ≡ code term.now) }
{
    let mut numbers = Vec::new(alloc);
    write(term, &mut numbers)?;
    Ok(numbers)
}

// Appends the code of a term.
#[cycle(write)]
#[tactic(auto, using(crate::proofs::multisets::CodesAt::writing))]
fn write(term: &U, numbers: &mut Vec<u32>) -> Result<(), AllocError>
    ensures { OnOk result (numbers.new.items ≡ numbers.old.items ++ code term.now) }
{
    match term {
        U::Zero => Ok(numbers.push(0)?),
        U::One => Ok(numbers.push(1)?),
        U::Add(a, b) => {
            numbers.push(2)?;
            write(a.get(), numbers)?;
            write(b.get(), numbers)
        }
        U::Mul(a, b) => {
            numbers.push(3)?;
            write(a.get(), numbers)?;
            write(b.get(), numbers)
        }
        U::Squash(a) => {
            numbers.push(4)?;
            write(a.get(), numbers)
        }
        U::Not(a) => {
            numbers.push(5)?;
            write(a.get(), numbers)
        }
        U::Sum(body) => {
            numbers.push(6)?;
            write(body.get(), numbers)
        }
        U::Rel(table, args) => {
            numbers.push(7)?;
            numbers.push(*table)?;
            write_list(args.as_slice(), numbers)
        }
        U::Eq(a, b) => {
            numbers.push(8)?;
            write_value(a, numbers)?;
            write_value(b, numbers)
        }
        U::Pred(symbol, args) => {
            numbers.push(9)?;
            numbers.push(*symbol)?;
            write_list(args.as_slice(), numbers)
        }
    }
}

#[cycle(write)]
#[tactic(auto, using(crate::proofs::multisets::CodesAt::writing))]
fn write_value(value: &Val, numbers: &mut Vec<u32>) -> Result<(), AllocError>
    ensures { OnOk result (numbers.new.items ≡ numbers.old.items ++ value_code value.now) }
{
    match value {
        Val::Bound(place) => {
            numbers.push(0)?;
            Ok(numbers.push(*place)?)
        }
        Val::Free(name) => {
            numbers.push(1)?;
            Ok(numbers.push(*name)?)
        }
        Val::Lit(literal) => {
            numbers.push(2)?;
            Ok(numbers.push(*literal)?)
        }
        Val::Fun(symbol, args) => {
            numbers.push(3)?;
            numbers.push(*symbol)?;
            write_list(args.as_slice(), numbers)
        }
        Val::Agg(aggregate, body) => {
            numbers.push(4)?;
            numbers.push(*aggregate)?;
            write(body.get(), numbers)
        }
    }
}

#[cycle(write)]
fn write_list(values: &[Val], numbers: &mut Vec<u32>) -> Result<(), AllocError>
    ensures { OnOk result (numbers.new.items ≡ numbers.old.items ++ list_code values.now) }
{
    for value in values {
        numbers.push(1)?;
        write_value(value, numbers)?;
    }
    Ok(numbers.push(0)?)
}
