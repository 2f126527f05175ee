//! Whether proofs are accepted.

use merkle_core::family::Family;
use merkle_core::hasher::Hasher;
use merkle_core::location::Location;
use merkle_core::proof::Proof;
use rows_text::refusal::{OUT_OF_MEMORY, Refusal};
use rows_text::words::LocatedBytes;
use std::alloc::Global;

/// Whether a proof is accepted with this element.
pub fn accepts_leaf<F: Family, H: Hasher<F>>(
    hasher: &H,
    proof: &Proof<F, H::Digest>,
    element: &[u8],
    leaf: Location<F>,
    root: &H::Digest,
) -> Result<bool, Refusal> {
    let checked = proof.verify_element_inclusion(hasher, element, leaf, root);
    checked.ok().ok_or(OUT_OF_MEMORY)
}

/// Whether a proof is accepted with these elements, from a location on.
pub fn accepts_range<F: Family, H: Hasher<F>>(
    hasher: &H,
    proof: &Proof<F, H::Digest>,
    elements: &[&[u8]],
    start: Location<F>,
    root: &H::Digest,
) -> Result<bool, Refusal> {
    let checked = proof.verify_range_inclusion(hasher, elements, start, root);
    checked.ok().ok_or(OUT_OF_MEMORY)
}

/// Whether a proof is accepted with these elements, each at its location.
pub fn accepts_scattered<F: Family, H: Hasher<F>>(
    alloc: Global,
    hasher: &H,
    proof: &Proof<F, H::Digest>,
    elements: &[LocatedBytes],
    root: &H::Digest,
) -> Result<bool, Refusal> {
    let mut all: Vec<(&[u8], Location<F>)> = Vec::new(alloc);
    for element in elements {
        let located = (element.bytes.as_slice(), Location::new(element.index));
        if all.push(located).is_err() {
            return Err(OUT_OF_MEMORY);
        }
    }
    let checked = proof.verify_multi_inclusion(hasher, &all, root);
    checked.ok().ok_or(OUT_OF_MEMORY)
}
