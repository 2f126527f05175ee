//! How many of a structure's leaves, ranges and parts of ranges are proved.

use crate::bytes::proves_written;
use crate::parts::count_parts;
use crate::pinned::proves_pins;
use crate::ranges::{proves_range, proves_single};
use crate::spans::{Span, all_spans};
use merkle_core::family::Family;
use merkle_core::hasher::Hasher;
use merkle_core::mem::Mem;
use rows_text::calls::EveryCall;
use rows_text::refusal::Refusal;
use std::alloc::Global;

// How many of the proofs that a call asks for are proved of one range, for one number of inactive peaks.
fn count_of<F: Family, H: Hasher<F>>(
    alloc: Global,
    hasher: &H,
    structure: &Mem<F, H::Digest>,
    elements: &[&[u8]],
    call: EveryCall,
    span: &Span,
) -> u64 {
    let is_proved = match call {
        EveryCall::Leaves => proves_single(alloc, hasher, structure, elements, span),
        EveryCall::Pins => proves_pins(alloc, hasher, structure, elements, span),
        EveryCall::Ranges => proves_range(alloc, hasher, structure, elements, span),
        EveryCall::Written => proves_written(alloc, hasher, structure, elements, span),
        EveryCall::Stores => {
            return count_parts(alloc, hasher, structure, elements, span).unwrap_or(0);
        }
    };
    match is_proved {
        Ok(true) => 1,
        _ => 0,
    }
}

/// How many of the proofs that a call asks for are proved, one range after another for each number of inactive peaks.
pub fn count_proved<F: Family, H: Hasher<F>>(
    alloc: Global,
    hasher: &H,
    structure: &Mem<F, H::Digest>,
    elements: &[&[u8]],
    call: EveryCall,
) -> Result<u64, Refusal> {
    let spans = all_spans(alloc, elements.len())?;
    let mut proved = 0u64;
    for span in &spans {
        let count = count_of(alloc, hasher, structure, elements, call, span);
        proved = proved.saturating_add(count);
    }
    Ok(proved)
}
