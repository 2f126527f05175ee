//! The time that pieces of work take.

use std::alloc::Global;
use std::fmt;
use std::time::{CpuClock, Duration};

/// What was measured: a number of units of work, and the least time of the rounds.
#[derive(Clone, Copy)]
struct Row {
    tree: &'static str,
    work: &'static str,
    units: u64,
    // in nanoseconds
    least: u128,
}

/// The rows of a table, and the clock that they are taken from.
#[derive(Drop)]
pub struct Stopwatch<'a, C> {
    clock: &'a C,
    rows: Vec<Row>,
    // the sum of all bytes that were computed, so that no work is left out
    sum: u64,
    /// Whether neither the clock nor memory failed, and no call refused what it should grant. Who measures goes on after a
    /// failure, and notes it here.
    pub is_whole: bool,
}

impl<'a, C: CpuClock> Stopwatch<'a, C> {
    /// A table without rows.
    pub fn new(alloc: Global, clock: &'a C) -> Self {
        Stopwatch {
            clock,
            rows: Vec::new(alloc),
            sum: 0,
            is_whole: true,
        }
    }

    /// The thread time so far.
    pub fn now(&mut self) -> Duration {
        match self.clock.thread_cpu_time() {
            Ok(time) => time,
            Err(_) => {
                self.is_whole = false;
                Duration::ZERO
            }
        }
    }

    /// Notes that `units` units of work took the time since `start`.
    pub fn note(&mut self, tree: &'static str, work: &'static str, units: u64, start: Duration) {
        let least = self.now().saturating_sub(start).as_nanos();
        for row in &mut self.rows {
            if row.tree == tree && row.work == work {
                row.least = row.least.min(least);
                return;
            }
        }
        let row = Row {
            tree,
            work,
            units,
            least,
        };
        self.is_whole &= self.rows.push(row).is_ok();
    }

    /// Takes in what was computed.
    pub fn keep(&mut self, bytes: &[u8]) {
        for byte in bytes {
            self.sum = self.sum.wrapping_add(u64::from(*byte));
        }
    }
}

impl<C> fmt::Display for Stopwatch<'_, C> {
    fn fmt<W: fmt::Write>(&self, f: &mut fmt::Formatter<W>) -> fmt::Result {
        for row in &self.rows {
            let nanoseconds = row.least / u128::from(row.units.max(1));
            writeln!(
                f,
                "{:14} {:34} {:8} {:12}",
                row.tree, row.work, row.units, nanoseconds
            )?;
        }
        write!(f, "sum of all bytes: {}", self.sum)
    }
}
