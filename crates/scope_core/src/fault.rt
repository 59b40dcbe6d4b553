//! Why a query is refused.
ghost use Rattle.std.specs.Prelude.{◌≡◌, IfErr, IfOk};
ghost use Rattle.scope_core.specs.declared.fault.ScopeFault.TheVariants as fault;

use crate::NoMemory;
use std::alloc::AllocFailed;

/// What is wrong at a place of a query. The code is that of the line `case refused: CODE at PLACE`.
#[derive(Clone, Copy, Debug, PartialEq, Eq)]
pub enum ScopeCode {
    /// E30: an entry names no relation.
    UnknownTable,
    /// E31: no block from here outwards has the qualifier; of `alias.*`, this block has it not.
    UnknownAlias,
    /// E32: the entry of the qualifier lacks the column, no block offers a bare one, or a column of GROUP BY is not its block's.
    UnknownColumn,
    /// E33: two columns of the block that a name is found in, or of the qualified entry, have it.
    Ambiguous,
    /// E34: an alias twice in one block.
    AliasTwice,
    /// E35: a column, literal, operator, aggregate or scalar subquery where a truth is wanted.
    NotTruth,
    /// E36: a truth other than a call where a value is wanted.
    NotValue,
    /// E37: an aggregate in ON, WHERE or another aggregate's argument.
    AggregateHere,
    /// E38: in the items or HAVING of a grouped block, outside aggregates, a column of this block that is not a group column.
    NotGrouped,
    /// E39: an aggregate's argument names an outer block's column.
    OuterAggregate,
    /// E40: a subquery in the items or HAVING of a grouped block.
    SubqueryInGroup,
    /// E41: the operands of a set operator have two widths, or the query of an IN has another width than 1.
    WidthDiffers,
    /// E42: a scalar subquery that is not one block with one item, an aggregate, without DISTINCT, GROUP BY and HAVING.
    ScalarNotAggregate,
    /// E43: a view has one output name twice.
    NameTwice,
    /// E44: a star in a grouped block.
    StarInGroup,
}

/// Why a query or a view has no resolved tree.
#[derive(Clone, Copy, Debug, PartialEq, Eq)]
pub enum ScopeFault {
    NoMemory,
    /// A fault at a place of the text, the first in the order in which faults are sought. `first` and `second` are the two widths of
    /// `WidthDiffers`, and 0 otherwise.
    Refused {
        code: ScopeCode,
        at: u32,
        first: u32,
        second: u32,
    },
    /// A block has more than 2,048 outputs: `width` of them up to and with the item that passes this.
    TooWide {
        width: u32,
    },
}

impl From<NoMemory> for ScopeFault {
    ghost use Rattle.std.specs.Prelude.{◌≡◌};
    ghost use Rattle.scope_core.specs.declared.fault.ScopeFault.TheVariants.{NoMemory};

    ghost from_gives = { λ _ fault. fault ≡ NoMemory };

    fn from(_error: NoMemory) -> ScopeFault {
        ScopeFault::NoMemory
    }
}

impl<T: Drop> From<AllocFailed<T>> for ScopeFault {
    ghost use Rattle.std.specs.Prelude.{◌≡◌};
    ghost use Rattle.scope_core.specs.declared.fault.ScopeFault.TheVariants.{NoMemory};

    ghost from_gives = { λ _ fault. fault ≡ NoMemory };

    fn from(_failed: AllocFailed<T>) -> ScopeFault {
        ScopeFault::NoMemory
    }
}

/// The fault of this code at this place.
pub fn refused(code: ScopeCode, at: u32) -> ScopeFault
    ensures { result ≡ fault.Refused code at 0 0 }
{
    ScopeFault::Refused {
        code,
        at,
        first: 0,
        second: 0,
    }
}

/// A count as trees have it. What 32 bits don't hold has no tree in memory.
pub fn number(count: usize) -> Result<u32, ScopeFault>
    ensures fits { IfOk result (λ n. n ≡ count) }
    ensures err { IfErr result (λ f. f ≡ fault.NoMemory) }
{
    match u32::try_from(count) {
        Ok(number) => Ok(number),
        Err(_) => Err(ScopeFault::NoMemory),
    }
}
