//! The digest of all results, and what ends a job.

use std::alloc::{AllocError, AllocFailed};
use std::fmt;
use thiserror::Error;

/// What ends a job early.
#[derive(Clone, Copy, Debug, PartialEq, Eq, Error)]
pub enum Halt {
    /// There was no memory.
    #[error("merkle_jobs: out of memory")]
    OutOfMemory,
    /// A call refused what it should grant.
    #[error("merkle_jobs: refused")]
    Refused,
}

impl From<AllocError> for Halt {
    fn from(_error: AllocError) -> Self {
        Halt::OutOfMemory
    }
}

impl<T: Drop> From<AllocFailed<T>> for Halt {
    fn from(_error: AllocFailed<T>) -> Self {
        Halt::OutOfMemory
    }
}

/// A digest of all results so far, in 64 bits, and the number of their bytes.
#[derive(Clone, Copy)]
pub struct Tally {
    digest: u64,
    bytes: u64,
}

impl Tally {
    /// The digest of no results.
    pub fn new() -> Self {
        Tally {
            digest: 0xcbf2_9ce4_8422_2325,
            bytes: 0,
        }
    }

    /// Takes in a result, eight bytes at a time, so that this takes little of a job's time.
    pub fn keep(&mut self, bytes: &[u8]) {
        let mut digest = self.digest;
        for part in bytes.chunks(8) {
            digest = (digest ^ word_of(part))
                .wrapping_mul(0x9e37_79b9_7f4a_7c15)
                .rotate_left(29);
        }
        self.digest = digest;
        self.bytes = self.bytes.wrapping_add(bytes.len() as u64);
    }

    /// Takes in a number.
    pub fn keep_number(&mut self, number: u64) {
        self.keep(&number.to_be_bytes());
    }
}

impl fmt::Display for Tally {
    fn fmt<W: fmt::Write>(&self, f: &mut fmt::Formatter<W>) -> fmt::Result {
        write!(f, "{:016x} of {} bytes", self.digest, self.bytes)
    }
}

// The number that up to eight bytes spell, the most significant first.
fn word_of(part: &[u8]) -> u64 {
    if let [a, b, c, d, e, f, g, h] = part {
        return u64::from_be_bytes([*a, *b, *c, *d, *e, *f, *g, *h]);
    }
    let mut word = 0;
    for byte in part {
        word = (word << 8) | u64::from(*byte);
    }
    word
}
