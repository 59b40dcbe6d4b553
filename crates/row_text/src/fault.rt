//! Why a text is not read.

use crate::template::MOST_BYTES;
use std::alloc::{AllocError, AllocFailed};
use thiserror::Error;

/// Why a piece of a text is not read.
#[derive(Debug, Drop, Error)]
pub enum TextFault {
    #[error("these braces have no such form")]
    BadBraces,
    #[error("this number of a pass stands in no repetition")]
    NoPass,
    #[error("nothing is repeated")]
    NothingRepeated,
    #[error("a repetition is not closed")]
    NotClosed,
    #[error("a text is written in more than {MOST_BYTES} bytes")]
    TooLong,
    #[error("want of memory")]
    NoMemory,
}

impl From<AllocError> for TextFault {
    fn from(_: AllocError) -> TextFault {
        TextFault::NoMemory
    }
}

impl<T: Drop> From<AllocFailed<T>> for TextFault {
    fn from(_: AllocFailed<T>) -> TextFault {
        TextFault::NoMemory
    }
}
