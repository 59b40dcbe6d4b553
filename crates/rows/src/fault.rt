//! Why a text of rows is not read.

use row_text::TextFault;
use std::alloc::{AllocError, AllocFailed};
use thiserror::Error;

/// Why a line of a text of rows is not read.
#[derive(Debug, Drop, Error)]
pub enum RowFault {
    #[error("{0}")]
    Text(TextFault),
    #[error("a row has no name")]
    NoName,
    #[error("no field begins with this word")]
    NoSuchField,
    #[error("an indented line belongs to no field")]
    NoField,
    #[error("a status is a number of at most 255")]
    BadStatus,
    #[error("three numbers are wanted: bytes, the first call and the last one")]
    BadCalls,
    #[error("two numbers are wanted: bytes, and the room")]
    BadRoom,
    #[error("the row before has no output")]
    NoOutput,
    #[error("want of memory")]
    NoMemory,
}

impl From<AllocError> for RowFault {
    fn from(_: AllocError) -> RowFault {
        RowFault::NoMemory
    }
}

impl<T: Drop> From<AllocFailed<T>> for RowFault {
    fn from(_: AllocFailed<T>) -> RowFault {
        RowFault::NoMemory
    }
}

impl From<TextFault> for RowFault {
    fn from(fault: TextFault) -> RowFault {
        RowFault::Text(fault)
    }
}
