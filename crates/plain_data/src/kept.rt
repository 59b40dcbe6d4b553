//! A value that is let go by one call.
ghost use Rattle.std.specs.Prelude.{◌≡◌};
ghost use Rattle.std.specs.Borrow.{sem};
ghost use Rattle.plain_data.specs.Lending.{LendsKept};

use std::marker::Model;

/// A value, which contracts see as itself. To let it go is one call, where a bare enum is taken apart by its variants in each function that
/// may let it go. So functions that hold a tree while something may fail are proved in a fraction of the time. It takes no memory beside
/// the value's.
pub struct Kept<T> {
    value: T,
}

impl<T> Model for Kept<T> {
    ghost use Rattle.std.specs.Prelude.{◌≡◌};

    ghost Value = { T };

    ghost coded = { T.code };

    ghost view = { λ kept. kept.value };
}

impl<T: Drop> Drop for Kept<T> {
    fn drop(self) {
        let Kept { value: _ } = self;
    }
}

impl<T> Kept<T> {
    /// Takes the value over, without taking memory.
    pub fn new(value: T) -> Kept<T>
        ensures { result ≡ value }
    {
        Kept { value }
    }

    /// Lends the value.
    pub fn get(&self) -> &T
        ensures { result.now ≡ self.now }
    {
        &self.value
    }

    /// Lends the value for edits in place.
    pub fn get_mut(&mut self) -> &mut T
        ensures* writes_back { sem 𝓛 (LendsKept T.row self.entry result) }
        ensures value { result.now ≡ self.old }
    {
        &mut self.value
    }

    /// Hands the value on.
    pub fn into_inner(self) -> T
        ensures { result ≡ self }
    {
        let Kept { value } = self;
        value
    }
}
