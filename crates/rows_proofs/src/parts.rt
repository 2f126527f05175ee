//! How many parts of a structure's ranges are proved by stores.

use crate::spans::{Span, push_spans};
use merkle_core::digest::Digest;
use merkle_core::family::Family;
use merkle_core::hasher::Hasher;
use merkle_core::location::Location;
use merkle_core::mem::Mem;
use merkle_core::verification::ProofStore;
use rows_calls::refusal::granted;
use rows_text::refusal::{OUT_OF_MEMORY, Refusal};
use std::alloc::Global;

/// How many parts of a range are proved by the store of the range's proof.
pub fn count_parts<F: Family, H: Hasher<F>>(
    alloc: Global,
    hasher: &H,
    structure: &Mem<F, H::Digest>,
    elements: &[&[u8]],
    span: &Span,
) -> Result<u64, Refusal> {
    let elements = span.of(elements);
    let mut parts = Vec::new(alloc);
    push_spans(&mut parts, elements.len(), span.inactive)?;
    let kept = KeptRange::new(hasher, structure, elements, span)?;
    Ok(kept.count(hasher, &parts))
}

// The store of a structure's own proof of some elements.
#[derive(Drop)]
struct KeptRange<'a, F: Family, D: Digest> {
    structure: &'a Mem<F, D>,
    elements: &'a [&'a [u8]],
    start: usize,
    root: D,
    store: ProofStore<F, D>,
}

impl<'a, F: Family, D: Digest> KeptRange<'a, F, D> {
    // The store of the proof of the elements from a location on.
    fn new<H: Hasher<F, Digest = D>>(
        hasher: &H,
        structure: &'a Mem<F, D>,
        elements: &'a [&'a [u8]],
        span: &Span,
    ) -> Result<Self, Refusal> {
        let first = Location::from(span.start);
        let end = Location::from(span.end);
        let root = granted(structure.root(hasher, span.inactive))?;
        let proof = granted(structure.range_proof(hasher, first..end, span.inactive))?;
        let store = granted(ProofStore::new(hasher, &proof, elements, first, &root))?;
        Ok(KeptRange {
            structure,
            elements,
            start: span.start,
            root,
            store,
        })
    }

    // How many of these parts of the range are proved.
    fn count<H: Hasher<F, Digest = D>>(&self, hasher: &H, parts: &[Span]) -> u64 {
        let mut proved = 0u64;
        for part in parts {
            if let Ok(true) = self.proves_part(hasher, part) {
                proved = proved.saturating_add(1);
            }
        }
        proved
    }

    // Whether the store's proof of a part is the structure's own, and is accepted with the elements.
    fn proves_part<H: Hasher<F, Digest = D>>(
        &self,
        hasher: &H,
        part: &Span,
    ) -> Result<bool, Refusal> {
        let elements = part.of(self.elements);
        let first = Location::from(self.start.saturating_add(part.start));
        let end = Location::from(self.start.saturating_add(part.end));
        let own = granted(
            self.structure
                .range_proof(hasher, first..end, part.inactive),
        )?;
        let part = granted(self.store.range_proof(hasher, first..end))?;
        let checked = part.verify_range_inclusion(hasher, elements, first, &self.root);
        let is_accepted = checked.ok().ok_or(OUT_OF_MEMORY)?;
        Ok(is_accepted && part == own)
    }
}
