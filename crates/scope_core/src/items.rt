//! Values in a row, some of which other rows share.
ghost use Rattle.std.specs.Prelude.{◌≡◌, ◌++◌, ◌∷◌, [], length, option_copied, slice_get, IfOk, OnOk};
ghost use Rattle.scope_core.specs.Written.{written};

use crate::NoMemory;
use plain_data::{List, Shared};
use std::alloc::Global;
use std::marker::Model;
use std::mem;

/// A row of values, which contracts see as their list. It is kept in parts, so that rows may share what is long.
#[derive(Drop)]
pub struct Items<T> {
    parts: Vec<Shared<List<T>>>,
    last: List<T>,
    len: usize,
}

impl<T> Model for Items<T> {
    ghost use Rattle.std.specs.Prelude.{◌≡◌, List, length};
    ghost use Rattle.std.specs.Coded.{coded_list};
    ghost use Rattle.scope_core.specs.Written.{written};

    ghost Value = { List T };

    ghost coded = { coded_list T.code };

    ghost view = { λ items. written items.parts.items items.last };

    ghost invariant = { λ items. items.len ≡ length (written items.parts.items items.last) };
}

/// The parts of a row: those that are shared or come before such a one, and the last.
#[derive(Drop)]
pub struct Parts<'a, T> {
    pub before: &'a [Shared<List<T>>],
    pub last: &'a [T],
}

impl<T> Items<T> {
    /// A row without values, which takes no memory.
    pub fn new(alloc: Global) -> Items<T>
        ensures { result ≡ [] }
    {
        Items {
            parts: Vec::new(alloc),
            last: List::new(alloc),
            len: 0,
        }
    }

    /// A row without values, with room for so many that are not shared.
    pub fn with_capacity(alloc: Global, capacity: usize) -> Result<Items<T>, NoMemory>
        ensures { IfOk result (λ items. items ≡ []) }
    {
        let last = Vec::with_capacity(alloc, capacity)?;
        Ok(Items {
            parts: Vec::new(alloc),
            last: List::from_vec(last),
            len: 0,
        })
    }

    /// How many values there are.
    pub fn len(&self) -> usize
        ensures { result ≡ length self.now }
    {
        self.len
    }

    /// All values, lent in parts.
    pub fn parts(&self) -> Parts<'_, T>
        ensures { written result.before.now result.last.now ≡ self.now }
    {
        Parts {
            before: self.parts.as_slice(),
            last: self.last.as_slice(),
        }
    }

    /// The first value, if there is one.
    pub fn first(&self) -> Option<&T>
        ensures { option_copied result ≡ slice_get self.now 0 }
    {
        for part in self.parts.iter() {
            if let Some(value) = part.get().as_slice().first() {
                return Some(value);
            }
        }
        self.last.as_slice().first()
    }
}

impl<T: Drop> Items<T> {
    /// Appends a value. Where memory runs out it is dropped.
    pub fn push(&mut self, value: T) -> Result<(), NoMemory>
        ensures { OnOk result (self.new ≡ self.old ++ value ∷ []) }
    {
        let Some(len) = self.len.checked_add(1) else {
            return Err(NoMemory);
        };
        self.last.push(value)?;
        self.len = len;
        Ok(())
    }

    /// Appends values that other rows may have too. Where memory runs out the row is left without values.
    pub fn append_shared(&mut self, alloc: Global, values: Shared<List<T>>) -> Result<(), NoMemory>
        ensures { OnOk result (self.new ≡ self.old ++ values) }
    {
        let whole = mem::replace(self, Items::new(alloc));
        *self = whole.with_shared(alloc, values)?;
        Ok(())
    }

    fn with_shared(self, alloc: Global, values: Shared<List<T>>) -> Result<Items<T>, NoMemory>
        ensures { IfOk result (λ items. items ≡ self ++ values) }
    {
        let Items { parts, last, len } = self;
        let Some(len) = len.checked_add(values.get().len()) else {
            return Err(NoMemory);
        };
        let mut parts = closed(alloc, parts, last)?;
        parts.push(values)?;
        Ok(Items {
            parts,
            last: List::new(alloc),
            len,
        })
    }
}

/// The parts with the last one behind them, where it holds any value, in no more room than it needs.
fn closed<T: Drop>(
    alloc: Global,
    mut parts: Vec<Shared<List<T>>>,
    last: List<T>,
) -> Result<Vec<Shared<List<T>>>, NoMemory>
    ensures { IfOk result (λ whole. written whole.items [] ≡ written parts.items last) }
{
    if last.is_empty() {
        return Ok(parts);
    }
    let mut values = last.into_vec();
    values.shrink_to_fit();
    parts.push(Shared::new(alloc, List::from_vec(values))?)?;
    Ok(parts)
}
