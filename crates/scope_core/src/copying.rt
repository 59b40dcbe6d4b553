//! Copies of values. Their subqueries are shared, so a copy takes what stands around them.
ghost use Rattle.std.specs.Prelude.{◌≡◌, IfOk};

use crate::NoMemory;
use crate::tree::RVal;
use plain_data::{Boxed, List};
use std::alloc::Global;

impl RVal {
    /// An equal value.
    #[cycle(copy)]
    #[inline(never)]
    pub fn copy(&self, alloc: Global) -> Result<RVal, NoMemory>
        ensures { IfOk result (λ copy. copy ≡ self.now) }
    {
        match self {
            RVal::Col { up, entry, col } => Ok(RVal::Col {
                up: *up,
                entry: *entry,
                col: *col,
            }),
            RVal::Key { place } => Ok(RVal::Key { place: *place }),
            RVal::Lit { lit } => Ok(RVal::Lit { lit: *lit }),
            RVal::Fun { sym, args } => Ok(RVal::Fun {
                sym: *sym,
                args: copy_values(alloc, args.as_slice())?,
            }),
            RVal::Agg { fun, distinct, arg } => Ok(RVal::Agg {
                fun: *fun,
                distinct: *distinct,
                arg: copy_argument(alloc, arg)?,
            }),
            RVal::Sub { block } => Ok(RVal::Sub {
                block: block.share()?,
            }),
        }
    }
}

/// Copies in a row. Those of operators are made here, since a chain of operators goes down through them.
#[cycle(copy)]
#[inline(never)]
fn copy_values(alloc: Global, values: &[RVal]) -> Result<List<RVal>, NoMemory>
    ensures { IfOk result (λ copies. copies ≡ values.now) }
{
    let mut copies = Vec::with_capacity(alloc, values.len())?;
    for value in values {
        match value {
            RVal::Fun { sym, args } => {
                let args = copy_values(alloc, args.as_slice())?;
                copies.push_reserved(RVal::Fun { sym: *sym, args });
            }
            other => {
                let copy = other.copy(alloc)?;
                copies.push_reserved(copy);
            }
        }
    }
    Ok(List::from_vec(copies))
}

#[cycle(copy)]
#[inline(never)]
fn copy_argument(alloc: Global, arg: &Option<Boxed<RVal>>) -> Result<Option<Boxed<RVal>>, NoMemory>
    ensures { IfOk result (λ copy. copy ≡ arg.now) }
{
    match arg {
        Some(value) => Ok(Some(Boxed::new(alloc, value.get().copy(alloc)?)?)),
        None => Ok(None),
    }
}
