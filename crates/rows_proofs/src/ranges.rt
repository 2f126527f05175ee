//! Whether a structure's leaves and ranges are proved.

use crate::spans::Span;
use merkle_core::family::Family;
use merkle_core::hasher::Hasher;
use merkle_core::location::Location;
use merkle_core::mem::Mem;
use merkle_core::proof::Proof;
use rows_calls::changes::changed;
use rows_calls::checks::{accepts_leaf, accepts_range};
use rows_calls::refusal::granted;
use rows_text::refusal::Refusal;
use std::alloc::Global;

// Whether a proof is accepted with the element and refused with another.
fn accepts_this_alone<F: Family, H: Hasher<F>>(
    alloc: Global,
    hasher: &H,
    proof: &Proof<F, H::Digest>,
    element: &[u8],
    leaf: Location<F>,
    root: &H::Digest,
) -> Result<bool, Refusal> {
    let is_accepted = accepts_leaf(hasher, proof, element, leaf, root)?;
    let other = changed(alloc, element)?;
    let is_other_accepted = accepts_leaf(hasher, proof, other.as_slice(), leaf, root)?;
    Ok(is_accepted && !is_other_accepted)
}

/// Whether the proof of a leaf, for a number of inactive peaks, has that count and the structure's, and is accepted with
/// the element and refused with another.
pub fn proves_leaf<F: Family, H: Hasher<F>>(
    alloc: Global,
    hasher: &H,
    structure: &Mem<F, H::Digest>,
    leaf: Location<F>,
    element: &[u8],
    inactive: usize,
) -> Result<bool, Refusal> {
    let root = granted(structure.root(hasher, inactive))?;
    let proof = granted(structure.proof(hasher, leaf, inactive))?;
    if proof.leaves != structure.leaves() || proof.inactive_peaks != inactive {
        return Ok(false);
    }
    accepts_this_alone(alloc, hasher, &proof, element, leaf, &root)
}

/// Whether a range is one leaf alone, and the leaf is proved.
pub fn proves_single<F: Family, H: Hasher<F>>(
    alloc: Global,
    hasher: &H,
    structure: &Mem<F, H::Digest>,
    elements: &[&[u8]],
    span: &Span,
) -> Result<bool, Refusal> {
    let leaf = Location::from(span.start);
    match *span.of(elements) {
        [element] => proves_leaf(alloc, hasher, structure, leaf, element, span.inactive),
        _ => Ok(false),
    }
}

// The elements, with another in the place of the first.
fn with_first<'a>(
    alloc: Global,
    first: &'a [u8],
    elements: &[&'a [u8]],
) -> Result<Vec<&'a [u8]>, Refusal> {
    let mut all: Vec<&[u8]> = Vec::new(alloc);
    all.push(first)?;
    for element in elements.iter().skip(1) {
        all.push(*element)?;
    }
    Ok(all)
}

// Whether a proof is accepted with the elements, and refused with another first one.
fn accepts_these_alone<F: Family, H: Hasher<F>>(
    alloc: Global,
    hasher: &H,
    proof: &Proof<F, H::Digest>,
    elements: &[&[u8]],
    start: Location<F>,
    root: &H::Digest,
) -> Result<bool, Refusal> {
    let Some(first) = elements.first() else {
        return Ok(false);
    };
    let other = changed(alloc, first)?;
    let others = with_first(alloc, &other, elements)?;
    let is_accepted = accepts_range(hasher, proof, elements, start, root)?;
    let are_others_accepted = accepts_range(hasher, proof, &others, start, root)?;
    Ok(is_accepted && !are_others_accepted)
}

/// Whether the proof of a range is accepted with its elements, and refused with another first one.
pub fn proves_range<F: Family, H: Hasher<F>>(
    alloc: Global,
    hasher: &H,
    structure: &Mem<F, H::Digest>,
    elements: &[&[u8]],
    span: &Span,
) -> Result<bool, Refusal> {
    let start = Location::from(span.start);
    let end = Location::from(span.end);
    let root = granted(structure.root(hasher, span.inactive))?;
    let proof = granted(structure.range_proof(hasher, start..end, span.inactive))?;
    accepts_these_alone(alloc, hasher, &proof, span.of(elements), start, &root)
}
