ghost use Rattle.std.specs.Prelude.{◌≡◌, IfOk};

use crate::{List, Shared};
use std::alloc::{AllocError, Global};
use std::marker::Model;

/// A list with several owners, which contracts see as the list of its items.
#[derive(Drop)]
pub struct SharedList<T> {
    items: Shared<List<T>>,
}

impl<T> Model for SharedList<T> {
    ghost use Rattle.std.specs.Prelude.{List};
    ghost use Rattle.std.specs.Coded.{coded_list};

    ghost Value = { List T };

    ghost coded = { coded_list T.code };

    ghost view = { λ list. list.items };
}

impl<T> SharedList<T> {
    /// Lends all items.
    pub fn as_slice(&self) -> &[T]
        ensures { result.now ≡ self.now }
    {
        self.items.get().as_slice()
    }
}

impl<T: Drop> SharedList<T> {
    /// The items with one owner. Where memory runs out they are dropped.
    pub fn new(alloc: Global, items: List<T>) -> Result<SharedList<T>, AllocError>
        ensures { IfOk result (λ list. list ≡ items) }
    {
        Ok(SharedList {
            items: Shared::new(alloc, items)?,
        })
    }

    /// The same list for one owner more.
    pub fn share(&self) -> Result<SharedList<T>, AllocError>
        ensures { IfOk result (λ list. list ≡ self.now) }
    {
        Ok(SharedList {
            items: self.items.share()?,
        })
    }
}
