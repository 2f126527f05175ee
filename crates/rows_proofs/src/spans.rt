//! The ranges of a structure's elements.

use rows_calls::MOST_PEAKS;
use rows_text::refusal::Refusal;
use std::alloc::Global;

/// A range of a structure's elements, those from index `start` up to `end`, and a number of inactive peaks.
#[derive(Clone, Copy)]
pub struct Span {
    pub start: usize,
    pub end: usize,
    pub inactive: usize,
}

impl Span {
    /// Those of the elements that are in the range.
    pub fn of<'a, T>(&self, elements: &'a [T]) -> &'a [T] {
        if self.start <= self.end && self.end <= elements.len() {
            &elements[self.start..self.end]
        } else {
            &[]
        }
    }
}

/// Each range of so many elements that has any, one after another for each number of inactive peaks.
pub fn all_spans(alloc: Global, count: usize) -> Result<Vec<Span>, Refusal> {
    let mut all = Vec::new(alloc);
    for inactive in 0..=MOST_PEAKS {
        push_spans(&mut all, count, inactive)?;
    }
    Ok(all)
}

/// Adds each range of so many elements that has any, for one number of inactive peaks.
pub fn push_spans(all: &mut Vec<Span>, count: usize, inactive: usize) -> Result<(), Refusal> {
    for start in 0..count {
        push_spans_from(all, start, count, inactive)?;
    }
    Ok(())
}

// Adds those that begin with the element at `start`.
fn push_spans_from(
    all: &mut Vec<Span>,
    start: usize,
    count: usize,
    inactive: usize,
) -> Result<(), Refusal> {
    for end in start..count {
        all.push(Span {
            start,
            end: end.saturating_add(1),
            inactive,
        })?;
    }
    Ok(())
}
