//! Proofs of scattered leaves of a structure.

use merkle_core::digest::Digest;
use merkle_core::family::Family;
use merkle_core::location::Location;
use merkle_core::mem::Mem;
use merkle_core::proof::{Proof, multi_proof_positions};
use rows_calls::refusal::granted;
use rows_text::refusal::Refusal;
use std::alloc::Global;

/// The proof of the leaves at the locations of a structure.
pub fn scattered_proof<F: Family, D: Digest>(
    alloc: Global,
    structure: &Mem<F, D>,
    locations: &[Location<F>],
    inactive: usize,
) -> Result<Proof<F, D>, Refusal> {
    let leaves = structure.leaves();
    let positions = granted(multi_proof_positions(alloc, leaves, locations))?;
    let mut digests = Vec::new(alloc);
    for position in &positions {
        match structure.get_node(*position) {
            Some(digest) => digests.push(digest)?,
            None => return Err(Refusal::Of("ElementPruned", position.as_u64())),
        }
    }
    Ok(Proof {
        leaves,
        inactive_peaks: inactive,
        digests,
    })
}
