//! Why a text is no case.
use schema_read::SchemaFault;
use scope_core::ScopeFault;
use sql_cursor::ReadFault;
use std::alloc::AllocError;

/// The first fault of a text. Want of memory is `NoMemory` alone: none of the faults inside holds it.
#[derive(Debug, Drop)]
pub enum CaseFault {
    /// The text spells no case, or passes a limit of the reader.
    Read(ReadFault),
    /// A statement breaks a rule.
    Schema(SchemaFault),
    /// A view, the left query or the right one names what is not there, or what may not stand where it does.
    Scope(ScopeFault),
    /// E45: the two queries have these widths.
    QueriesDiffer { left: u32, right: u32 },
    /// E46: the text ends where the first query or the second should begin, and has `count` of them; or a third begins at `at`.
    NotTwoQueries { count: u64, at: u32 },
    NoMemory,
}

impl From<ReadFault> for CaseFault {
    ghost use Rattle.std.specs.Prelude.{◌≡◌};
    ghost use Rattle.case_core.specs.Wrapping.{of_read};

    ghost from_gives = { λ inner fault. fault ≡ of_read inner };

    fn from(fault: ReadFault) -> CaseFault {
        match fault {
            ReadFault::NoMemory => CaseFault::NoMemory,
            fault => CaseFault::Read(fault),
        }
    }
}

impl From<SchemaFault> for CaseFault {
    ghost use Rattle.std.specs.Prelude.{◌≡◌};
    ghost use Rattle.case_core.specs.Wrapping.{of_schema};

    ghost from_gives = { λ inner fault. fault ≡ of_schema inner };

    fn from(fault: SchemaFault) -> CaseFault {
        match fault {
            SchemaFault::NoMemory => CaseFault::NoMemory,
            fault => CaseFault::Schema(fault),
        }
    }
}

impl From<ScopeFault> for CaseFault {
    ghost use Rattle.std.specs.Prelude.{◌≡◌};
    ghost use Rattle.case_core.specs.Wrapping.{of_scope};

    ghost from_gives = { λ inner fault. fault ≡ of_scope inner };

    fn from(fault: ScopeFault) -> CaseFault {
        match fault {
            ScopeFault::NoMemory => CaseFault::NoMemory,
            fault => CaseFault::Scope(fault),
        }
    }
}

impl From<AllocError> for CaseFault {
    ghost use Rattle.std.specs.Prelude.{◌≡◌};
    ghost use Rattle.case_core.specs.declared.fault.CaseFault.TheVariants.{NoMemory};

    ghost from_gives = { λ _ fault. fault ≡ NoMemory };

    fn from(_error: AllocError) -> CaseFault {
        CaseFault::NoMemory
    }
}
