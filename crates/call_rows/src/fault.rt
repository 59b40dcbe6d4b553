//! Why a row is not read.

use row_text::TextFault;
use std::alloc::{AllocError, AllocFailed};
use thiserror::Error;

/// Why a call is not made, or not answered.
#[derive(Debug, Drop, Error)]
pub enum CallFault {
    #[error("{0}")]
    Text(TextFault),
    #[error("no call has this name")]
    NoSuchCall,
    #[error("the call takes more words, or fewer")]
    OtherWords,
    #[error("this is no number")]
    BadNumber,
    #[error("this is no line of a step, or its arguments are others")]
    BadStep,
    #[error("this is no term, no value or no path")]
    BadWord,
    #[error("a place dangles, or a name is not below the bound")]
    NotClosed,
    #[error("a term has more factors or is deeper than the calls take")]
    TooLarge,
    #[error("want of memory")]
    NoMemory,
}

impl From<AllocError> for CallFault {
    fn from(_: AllocError) -> CallFault {
        CallFault::NoMemory
    }
}

impl<T: Drop> From<AllocFailed<T>> for CallFault {
    fn from(_: AllocFailed<T>) -> CallFault {
        CallFault::NoMemory
    }
}

impl From<TextFault> for CallFault {
    fn from(fault: TextFault) -> CallFault {
        CallFault::Text(fault)
    }
}
