//! Counts of calls.
use std::cell::Cell;

// Counts a call.
pub(crate) fn count(calls: &Cell<u64>) {
    calls.set(calls.get().wrapping_add(1));
}
