//! What a call answers in place of a value.

use std::alloc::{AllocError, AllocFailed};
use std::fmt;

/// Why a call has no value.
#[derive(Clone, Copy, PartialEq, Eq)]
pub enum Refusal {
    /// The name says it all.
    Plain(&'static str),
    /// A refusal with a number.
    Of(&'static str, u64),
    /// A refusal with two node counts.
    Sizes {
        name: &'static str,
        expected: u64,
        actual: u64,
    },
    /// More peaks are called inactive than there are.
    InactivePeaks {
        requested: usize,
        peaks: usize,
    },
}

/// The line is no call.
pub const SYNTAX: Refusal = Refusal::Plain("syntax");

/// Nothing has the name.
pub const UNKNOWN: Refusal = Refusal::Plain("unknown");

/// A request for memory was refused.
pub const OUT_OF_MEMORY: Refusal = Refusal::Plain("OutOfMemory");

/// A refused call has changed what it was to leave as it is.
pub const CHANGED: Refusal = Refusal::Plain("changed");

impl fmt::Display for Refusal {
    fn fmt<W: fmt::Write>(&self, f: &mut fmt::Formatter<W>) -> fmt::Result {
        match self {
            Refusal::Plain(name) => write!(f, "{name}"),
            Refusal::Of(name, number) => write!(f, "{name} {number}"),
            Refusal::Sizes {
                name,
                expected,
                actual,
            } => write!(f, "{name} expected {expected} actual {actual}"),
            Refusal::InactivePeaks { requested, peaks } => {
                write!(
                    f,
                    "InvalidInactivePeaks requested {requested} peaks {peaks}"
                )
            }
        }
    }
}

impl From<AllocError> for Refusal {
    fn from(_error: AllocError) -> Self {
        OUT_OF_MEMORY
    }
}

impl<T: Drop> From<AllocFailed<T>> for Refusal {
    fn from(_error: AllocFailed<T>) -> Self {
        OUT_OF_MEMORY
    }
}
