//! Whether a structure's ranges have proofs that are accepted as they are written, and refused with a change.

use crate::spans::Span;
use merkle_core::codec::{Read, Write};
use merkle_core::digest::Digest;
use merkle_core::error::DecodeError;
use merkle_core::family::Family;
use merkle_core::hasher::Hasher;
use merkle_core::location::Location;
use merkle_core::mem::Mem;
use merkle_core::proof::{MAX_PROOF_DIGESTS_PER_ELEMENT, Proof};
use rows_calls::refusal::granted;
use rows_text::refusal::{OUT_OF_MEMORY, Refusal};
use std::alloc::Global;

/// The bits of a byte that are flipped: the lowest, and the one that says whether a number goes on.
const FLIPS: [u8; 2] = [0x01, 0x80];

/// Whether the bytes of a range's proof are accepted, and refused with a bit flipped, cut anywhere, or with a byte more.
pub fn proves_written<F: Family, H: Hasher<F>>(
    alloc: Global,
    hasher: &H,
    structure: &Mem<F, H::Digest>,
    elements: &[&[u8]],
    span: &Span,
) -> Result<bool, Refusal> {
    let start = Location::from(span.start);
    let end = Location::from(span.end);
    let root = granted(structure.root(hasher, span.inactive))?;
    let proof = granted(structure.range_proof(hasher, start..end, span.inactive))?;
    let mut bytes = Vec::new(alloc);
    if proof.write(&mut bytes).is_err() {
        return Err(OUT_OF_MEMORY);
    }
    let mut written = Written {
        alloc,
        elements: span.of(elements),
        start,
        root,
        bytes,
    };
    Ok(
        written.is_accepted(hasher)?
            && written.is_refused_flipped(hasher)?
            && written.is_refused_cut()
            && written.is_refused_longer(hasher)?,
    )
}

// The bytes of a proof, with the elements from a location on and a root.
#[derive(Drop)]
struct Written<'a, F: Family, D: Digest> {
    alloc: Global,
    elements: &'a [&'a [u8]],
    start: Location<F>,
    root: D,
    bytes: Vec<u8>,
}

impl<'a, F: Family, D: Digest> Written<'a, F, D> {
    // Whether the bytes are a proof and nothing more, which is accepted.
    fn is_accepted<H: Hasher<F, Digest = D>>(&self, hasher: &H) -> Result<bool, Refusal> {
        let most = MAX_PROOF_DIGESTS_PER_ELEMENT.saturating_mul(self.elements.len());
        let mut rest = self.bytes.as_slice();
        let proof: Proof<F, D> = match Proof::read(self.alloc, &mut rest, &most) {
            Ok(proof) => proof,
            Err(DecodeError::OutOfMemory) => return Err(OUT_OF_MEMORY),
            Err(_) => return Ok(false),
        };
        if !rest.is_empty() {
            return Ok(false);
        }
        let checked = proof.verify_range_inclusion(hasher, self.elements, self.start, &self.root);
        checked.ok().ok_or(OUT_OF_MEMORY)
    }

    // Whether they are refused with one bit flipped, whichever it is of those of any byte.
    fn is_refused_flipped<H: Hasher<F, Digest = D>>(
        &mut self,
        hasher: &H,
    ) -> Result<bool, Refusal> {
        for index in 0..self.bytes.len() {
            for flip in FLIPS {
                self.flip(index, flip);
                if self.is_accepted(hasher)? {
                    return Ok(false);
                }
                self.flip(index, flip);
            }
        }
        Ok(true)
    }

    fn flip(&mut self, index: usize, flip: u8) {
        if let Some(byte) = self.bytes.get_mut(index) {
            *byte ^= flip;
        }
    }

    // Whether no proof is read where they are cut, wherever that is.
    fn is_refused_cut(&self) -> bool {
        for length in 0..self.bytes.len() {
            let mut cut = &self.bytes.as_slice()[..length];
            let read: Result<Proof<F, D>, DecodeError> = Proof::read(
                self.alloc,
                &mut cut,
                &usize::MAX,
            );
            if !matches!(read, Err(DecodeError::EndOfBuffer)) {
                return false;
            }
        }
        true
    }

    // Whether they are refused with one byte more.
    fn is_refused_longer<H: Hasher<F, Digest = D>>(&mut self, hasher: &H) -> Result<bool, Refusal> {
        self.bytes.push(0)?;
        Ok(!self.is_accepted(hasher)?)
    }
}
