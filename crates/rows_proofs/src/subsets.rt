//! How many choices of a structure's leaves are proved.

use crate::scattered::scattered_proof;
use merkle_core::digest::Digest;
use merkle_core::family::Family;
use merkle_core::hasher::Hasher;
use merkle_core::location::Location;
use merkle_core::mem::Mem;
use merkle_core::proof::Proof;
use rows_calls::MOST_PEAKS;
use rows_calls::changes::{changed, other_digest};
use rows_calls::checks::accepts_scattered;
use rows_calls::refusal::granted;
use rows_text::refusal::Refusal;
use rows_text::words::LocatedBytes;
use std::alloc::Global;
use std::mem;

/// No structure has more leaves where every choice of them is proved.
const MOST_LEAVES: usize = 16;

/// How many choices of leaves, up to a number of them, are proved, one after another for each number of inactive peaks.
pub fn subsets_proved<F: Family, H: Hasher<F>>(
    alloc: Global,
    hasher: &H,
    structure: &Mem<F, H::Digest>,
    elements: &[Vec<u8>],
    most: u64,
) -> u64 {
    let mut proved = 0u64;
    for inactive in 0..=MOST_PEAKS {
        let count = count_subsets(alloc, hasher, structure, elements, most, inactive);
        proved = proved.saturating_add(count);
    }
    proved
}

// How many choices of leaves, up to a number of them, are proved for a number of inactive peaks.
fn count_subsets<F: Family, H: Hasher<F>>(
    alloc: Global,
    hasher: &H,
    structure: &Mem<F, H::Digest>,
    elements: &[Vec<u8>],
    most: u64,
    inactive: usize,
) -> u64 {
    let mut proved = 0u64;
    for choice in 1..1u64 << elements.len().min(MOST_LEAVES) {
        if u64::from(choice.count_ones()) <= most {
            let is_proved = proves_choice(alloc, hasher, structure, elements, choice, inactive);
            if let Ok(true) = is_proved {
                proved = proved.saturating_add(1);
            }
        }
    }
    proved
}

// Whether the proof of the chosen leaves is accepted with their elements, and refused where one part of it is changed.
fn proves_choice<F: Family, H: Hasher<F>>(
    alloc: Global,
    hasher: &H,
    structure: &Mem<F, H::Digest>,
    elements: &[Vec<u8>],
    choice: u64,
    inactive: usize,
) -> Result<bool, Refusal> {
    let root = granted(structure.root(hasher, inactive))?;
    let elements = chosen(alloc, elements, choice)?;
    let mut locations = Vec::new(alloc);
    for element in &elements {
        locations.push(Location::new(element.index))?;
    }
    let proof = scattered_proof(alloc, structure, &locations, inactive)?;
    let mut claim = Claim {
        alloc,
        proof,
        elements,
        root,
    };
    Ok(
        claim.is_accepted(hasher)?
            && claim.needs_each_digest(hasher)?
            && claim.needs_each_element(hasher)?
            && claim.needs_each_location(hasher)?
            && claim.needs_each_count(hasher)?,
    )
}

// The elements whose bits are set, each with its location.
fn chosen(alloc: Global, elements: &[Vec<u8>], choice: u64) -> Result<Vec<LocatedBytes>, Refusal> {
    let mut all = Vec::new(alloc);
    let mut rest = choice;
    for (leaf, element) in elements.iter().enumerate() {
        if rest % 2 == 1 {
            all.push(LocatedBytes {
                index: leaf as u64,
                bytes: element.clone()?,
            })?;
        }
        rest /= 2;
    }
    Ok(all)
}

// Elements at locations, with a proof of them and a root.
#[derive(Drop)]
struct Claim<F: Family, D: Digest> {
    alloc: Global,
    proof: Proof<F, D>,
    elements: Vec<LocatedBytes>,
    root: D,
}

impl<F: Family, D: Digest> Claim<F, D> {
    fn is_accepted<H: Hasher<F, Digest = D>>(&self, hasher: &H) -> Result<bool, Refusal> {
        accepts_scattered(
            self.alloc,
            hasher,
            &self.proof,
            self.elements.as_slice(),
            &self.root,
        )
    }

    // Whether it is refused with another in the place of any digest.
    fn needs_each_digest<H: Hasher<F, Digest = D>>(&mut self, hasher: &H) -> Result<bool, Refusal> {
        for index in 0..self.proof.digests.len() {
            let Some(place) = self.proof.digests.get_mut(index) else {
                return Ok(false);
            };
            let digest = *place;
            *place = other_digest(self.alloc, &digest)?;
            if self.is_accepted(hasher)? {
                return Ok(false);
            }
            if let Some(place) = self.proof.digests.get_mut(index) {
                *place = digest;
            }
        }
        Ok(true)
    }

    // Whether it is refused with another in the place of any element.
    fn needs_each_element<H: Hasher<F, Digest = D>>(
        &mut self,
        hasher: &H,
    ) -> Result<bool, Refusal> {
        for index in 0..self.elements.len() {
            let Some(place) = self.elements.get_mut(index) else {
                return Ok(false);
            };
            let other = changed(self.alloc, place.bytes.as_slice())?;
            let element = mem::replace(&mut place.bytes, other);
            if self.is_accepted(hasher)? {
                return Ok(false);
            }
            if let Some(place) = self.elements.get_mut(index) {
                place.bytes = element;
            }
        }
        Ok(true)
    }

    // Whether it is refused with the next location in the place of any.
    fn needs_each_location<H: Hasher<F, Digest = D>>(
        &mut self,
        hasher: &H,
    ) -> Result<bool, Refusal> {
        for index in 0..self.elements.len() {
            let Some(place) = self.elements.get_mut(index) else {
                return Ok(false);
            };
            let leaf = place.index;
            place.index = leaf.saturating_add(1);
            if self.is_accepted(hasher)? {
                return Ok(false);
            }
            if let Some(place) = self.elements.get_mut(index) {
                place.index = leaf;
            }
        }
        Ok(true)
    }

    // Whether it is refused with another leaf count, and with another number of inactive peaks.
    fn needs_each_count<H: Hasher<F, Digest = D>>(&mut self, hasher: &H) -> Result<bool, Refusal> {
        let leaves = self.proof.leaves;
        self.proof.leaves = leaves.saturating_add(1);
        let is_more_accepted = self.is_accepted(hasher)?;
        self.proof.leaves = leaves.saturating_sub(1);
        let is_less_accepted = self.is_accepted(hasher)?;
        self.proof.leaves = leaves;
        self.proof.inactive_peaks = self.proof.inactive_peaks.saturating_add(1);
        let is_other_accepted = self.is_accepted(hasher)?;
        Ok(!is_more_accepted && !is_less_accepted && !is_other_accepted)
    }
}
