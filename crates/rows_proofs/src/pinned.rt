//! Whether ranges of a structure are proved with the pins before them.

use crate::spans::Span;
use merkle_core::digest::Digest;
use merkle_core::family::Family;
use merkle_core::hasher::Hasher;
use merkle_core::location::Location;
use merkle_core::mem::Mem;
use merkle_core::proof::Proof;
use rows_calls::changes::other_digest;
use rows_calls::refusal::granted;
use rows_text::refusal::{OUT_OF_MEMORY, Refusal};
use std::alloc::Global;

/// Whether the proof of a range is accepted with the pins before it, and refused where a digest, a pin or the number of pins
/// is changed.
pub fn proves_pins<F: Family, H: Hasher<F>>(
    alloc: Global,
    hasher: &H,
    structure: &Mem<F, H::Digest>,
    elements: &[&[u8]],
    span: &Span,
) -> Result<bool, Refusal> {
    let start = Location::from(span.start);
    let end = Location::from(span.end);
    let root = granted(structure.root(hasher, span.inactive))?;
    let proof = granted(structure.range_proof(hasher, start..end, span.inactive))?;
    let pins = pins_before(alloc, structure, start)?;
    let mut claim = PinnedClaim {
        alloc,
        proof,
        elements: span.of(elements),
        start,
        pins,
        root,
    };
    Ok(
        claim.is_accepted(hasher)?
            && claim.needs_each_digest(hasher)?
            && claim.needs_each_pin(hasher)?
            && claim.needs_no_more_pins(hasher)?,
    )
}

// The digests of the peaks of the first leaves of a structure, oldest first.
fn pins_before<F: Family, D: Digest>(
    alloc: Global,
    structure: &Mem<F, D>,
    leaves: Location<F>,
) -> Result<Vec<D>, Refusal> {
    let mut pins = Vec::new(alloc);
    if !leaves.is_valid() {
        return Ok(pins);
    }
    for position in F::nodes_to_pin(leaves) {
        match structure.get_node(position) {
            Some(digest) => pins.push(digest)?,
            None => return Err(Refusal::Of("ElementPruned", position.as_u64())),
        }
    }
    Ok(pins)
}

// Elements from a location on, with a proof of them, the pins before them and a root.
#[derive(Drop)]
struct PinnedClaim<'a, F: Family, D: Digest> {
    alloc: Global,
    proof: Proof<F, D>,
    elements: &'a [&'a [u8]],
    start: Location<F>,
    pins: Vec<D>,
    root: D,
}

impl<F: Family, D: Digest> PinnedClaim<'_, F, D> {
    fn is_accepted<H: Hasher<F, Digest = D>>(&self, hasher: &H) -> Result<bool, Refusal> {
        let checked = self
            .proof
            .verify_proof_and_pinned_nodes(
                hasher,
                self.elements,
                self.start,
                &self.pins,
                &self.root,
            );
        checked.ok().ok_or(OUT_OF_MEMORY)
    }

    // Whether it is refused with another in the place of any digest.
    fn needs_each_digest<H: Hasher<F, Digest = D>>(&mut self, hasher: &H) -> Result<bool, Refusal> {
        for index in 0..self.proof.digests.len() {
            let Some(place) = self.proof.digests.get_mut(index) else {
                return Ok(false);
            };
            let digest = *place;
            *place = other_digest(self.alloc, &digest)?;
            if self.is_accepted(hasher)? {
                return Ok(false);
            }
            if let Some(place) = self.proof.digests.get_mut(index) {
                *place = digest;
            }
        }
        Ok(true)
    }

    // Whether it is refused with another in the place of any pin.
    fn needs_each_pin<H: Hasher<F, Digest = D>>(&mut self, hasher: &H) -> Result<bool, Refusal> {
        for index in 0..self.pins.len() {
            let Some(place) = self.pins.get_mut(index) else {
                return Ok(false);
            };
            let digest = *place;
            *place = other_digest(self.alloc, &digest)?;
            if self.is_accepted(hasher)? {
                return Ok(false);
            }
            if let Some(place) = self.pins.get_mut(index) {
                *place = digest;
            }
        }
        Ok(true)
    }

    // Whether it is refused with one pin more, and with the last one left out.
    fn needs_no_more_pins<H: Hasher<F, Digest = D>>(
        &mut self,
        hasher: &H,
    ) -> Result<bool, Refusal> {
        let root = self.root;
        self.pins.push(root)?;
        let is_more_accepted = self.is_accepted(hasher)?;
        self.pins.pop();
        let is_none_left_out = self.pins.pop().is_none();
        let is_less_accepted = self.is_accepted(hasher)?;
        Ok(!is_more_accepted && (is_none_left_out || !is_less_accepted))
    }
}
