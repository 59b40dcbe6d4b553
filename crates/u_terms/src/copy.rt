ghost use Rattle.std.specs.Prelude.{◌≡◌, IfOk};

use crate::NoMemory;
use crate::term::{U, Val};
use plain_data::{Boxed, List};
use std::alloc::Global;

impl U {
    /// An equal term in memory of its own.
    #[cycle(copy)]
    pub fn copy(&self, alloc: Global) -> Result<U, NoMemory>
        ensures { IfOk result (λ copy. copy ≡ self.now) }
    {
        match self {
            U::Zero => Ok(U::Zero),
            U::One => Ok(U::One),
            U::Add(a, b) => Ok(U::Add(copy_boxed(alloc, a)?, copy_boxed(alloc, b)?)),
            U::Mul(a, b) => Ok(U::Mul(copy_boxed(alloc, a)?, copy_boxed(alloc, b)?)),
            U::Squash(a) => Ok(U::Squash(copy_boxed(alloc, a)?)),
            U::Not(a) => Ok(U::Not(copy_boxed(alloc, a)?)),
            U::Sum(body) => Ok(U::Sum(copy_boxed(alloc, body)?)),
            U::Rel(table, args) => Ok(U::Rel(*table, copy_list(alloc, args.as_slice())?)),
            U::Eq(a, b) => Ok(U::Eq(a.copy(alloc)?, b.copy(alloc)?)),
            U::Pred(symbol, args) => Ok(U::Pred(*symbol, copy_list(alloc, args.as_slice())?)),
        }
    }
}

impl Val {
    /// An equal value in memory of its own.
    #[cycle(copy)]
    pub fn copy(&self, alloc: Global) -> Result<Val, NoMemory>
        ensures { IfOk result (λ copy. copy ≡ self.now) }
    {
        match self {
            Val::Bound(place) => Ok(Val::Bound(*place)),
            Val::Free(name) => Ok(Val::Free(*name)),
            Val::Lit(literal) => Ok(Val::Lit(*literal)),
            Val::Fun(symbol, args) => Ok(Val::Fun(*symbol, copy_list(alloc, args.as_slice())?)),
            Val::Agg(aggregate, body) => Ok(Val::Agg(*aggregate, copy_boxed(alloc, body)?)),
        }
    }
}

#[cycle(copy)]
fn copy_boxed(alloc: Global, term: &Boxed<U>) -> Result<Boxed<U>, NoMemory>
    ensures { IfOk result (λ copy. copy ≡ term.now) }
{
    Boxed::new(alloc, term.get().copy(alloc)?)
}

#[cycle(copy)]
fn copy_list(alloc: Global, values: &[Val]) -> Result<List<Val>, NoMemory>
    ensures { IfOk result (λ copy. copy ≡ values.now) }
{
    let mut copies = Vec::with_capacity(alloc, values.len())?;
    for value in values {
        copies.push(value.copy(alloc)?)?;
    }
    Ok(List::from_vec(copies))
}
