//! Why statements are no schema.

use std::alloc::{AllocError, AllocFailed};

/// A rule that a `CREATE` statement breaks.
#[derive(Clone, Copy, Debug, PartialEq, Eq)]
pub enum SchemaCode {
    /// A table, a view or an index has the name of one that is declared before.
    TableTwice,
    /// A column stands twice in a table or in one list of names.
    ColumnTwice,
    /// `REFERENCES` or an index names no table that is declared so far.
    UnknownTable,
    /// A key, a foreign key or an index names no column of its table.
    UnknownColumn,
    /// The referenced columns are no key as a set, or none are written and the referenced table has no primary key.
    NoSuchKey,
    /// The two lists of a foreign key differ in length.
    CountDiffers,
    /// A table has a second primary key.
    PrimaryTwice,
}

impl SchemaCode {
    ghost use Rattle.std.specs.Prelude.{◌≡◌};
    ghost use Rattle.schema_read.specs.declared.fault.SchemaFault.TheVariants.{Refused};

    /// A refusal at this place.
    pub(crate) fn at(self, at: u32) -> SchemaFault
        ensures { result ≡ Refused self at }
    {
        SchemaFault::Refused { code: self, at }
    }
}

/// Why no schema was built.
#[derive(Clone, Copy, Debug, PartialEq, Eq)]
pub enum SchemaFault {
    /// `at` is the place of the name that is at fault: of the second where it stands twice, of the referenced table's name for
    /// `NoSuchKey` and `CountDiffers`, and of the word `PRIMARY` for `PrimaryTwice`.
    Refused { code: SchemaCode, at: u32 },
    /// Memory ran out.
    NoMemory,
}

impl From<AllocError> for SchemaFault {
    ghost use Rattle.std.specs.Prelude.{◌≡◌};
    ghost use Rattle.schema_read.specs.declared.fault.SchemaFault.TheVariants.{NoMemory};

    ghost from_gives = { λ _ fault. fault ≡ NoMemory };

    fn from(_error: AllocError) -> SchemaFault {
        SchemaFault::NoMemory
    }
}

impl<T: Drop> From<AllocFailed<T>> for SchemaFault {
    ghost use Rattle.std.specs.Prelude.{◌≡◌};
    ghost use Rattle.schema_read.specs.declared.fault.SchemaFault.TheVariants.{NoMemory};

    ghost from_gives = { λ _ fault. fault ≡ NoMemory };

    fn from(_failed: AllocFailed<T>) -> SchemaFault {
        SchemaFault::NoMemory
    }
}
