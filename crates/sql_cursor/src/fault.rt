//! Why a text is refused.
use sql_lex::LexFault;
use sql_model::Name;
use std::alloc::{AllocError, AllocFailed};

/// The limits of a case that its reader keeps.
#[derive(Clone, Copy, Debug, PartialEq, Eq)]
pub enum LimitKind {
    /// Columns of a table.
    Columns,
    /// Entries of a block.
    Entries,
    /// Tables, views and indexes.
    Relations,
    /// The weight of the values that a case copies.
    Copies,
}

/// A refusal. Places count bytes of the text, from 0.
#[derive(Debug, Drop)]
pub enum ReadFault {
    /// The text does not go on with a token.
    Lex(LexFault),
    /// No text goes on with this token, or ends here.
    Unexpected { at: u32 },
    /// The same, where the token is a word of what the grammar leaves out.
    LeftOut { word: Name, at: u32 },
    /// The token opens a level too many, or makes a chain too long.
    TooDeep { at: u32 },
    /// A count passes its limit.
    Limit { what: LimitKind },
    /// Memory ran out.
    NoMemory,
}

impl From<AllocError> for ReadFault {
    ghost use Rattle.std.specs.Prelude.{◌≡◌};
    ghost use Rattle.sql_cursor.specs.declared.fault.ReadFault.TheVariants.{NoMemory};

    ghost from_gives = { λ _ fault. fault ≡ NoMemory };

    fn from(_error: AllocError) -> ReadFault {
        ReadFault::NoMemory
    }
}

impl<T: Drop> From<AllocFailed<T>> for ReadFault {
    ghost use Rattle.std.specs.Prelude.{◌≡◌};
    ghost use Rattle.sql_cursor.specs.declared.fault.ReadFault.TheVariants.{NoMemory};

    ghost from_gives = { λ _ fault. fault ≡ NoMemory };

    fn from(_failed: AllocFailed<T>) -> ReadFault {
        ReadFault::NoMemory
    }
}
