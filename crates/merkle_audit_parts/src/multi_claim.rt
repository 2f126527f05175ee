//! What is hashed for an accepted input of a check of scattered leaves.
ghost use Rattle.std.specs.Prelude.{◌≡◌, ◌≢◌, ◌≤◌, ◌<◌, ℕ, List, Option, IfOk, IfSome, IfNone, IsOkUnless, IsTrue, length, map, flat_map, option_map};
ghost use Rattle.std.specs.List.{AllByRecursion};
ghost use Rattle.std.specs.List.Sorted.{IsStrictlyIncreasing};
ghost use Rattle.merkle_base.specs.Forest.{size};
ghost use Rattle.merkle_base.specs.Places.{peaks_of};
ghost use Rattle.merkle_base.specs.Scheme.{Scheme};
ghost use Rattle.merkle_proof.specs.Input.{digested, multi_digest_input_of};
ghost use Rattle.merkle_scattered.specs.MultiPositions.{AreLocations};
ghost use Rattle.merkle_root_theory.specs.Expression as theory;
ghost use Rattle.merkle_claim_theory.specs.Multiproof.{multi_positions, AcceptsMulti};
ghost use Rattle.merkle_claim_theory.specs.Order.{node_places};
ghost use Rattle.merkle_claim_theory.specs.Verdict.{multi_inputs};
ghost use Rattle.merkle_audit_theory.specs.Differences.{is_difference};
ghost use Rattle.merkle_audit_theory.specs.Folds.{top_inputs, multi_digest};
ghost use Rattle.merkle_audit_theory.specs.Searches.{input_at, looked_up};
ghost use Rattle.merkle_walk_theory.specs.Compared.{Lists};
ghost use Rattle.merkle_walks.specs.Hashed.{located, top_of};

use crate::list::peak_count;
use merkle_core::digest::Digest;
use merkle_core::error::Error;
use merkle_core::family::Family;
use merkle_core::hasher::Hasher;
use merkle_core::location::Location;
use merkle_core::position::Position;
use merkle_core::proof::{Proof, multi_proof_positions};
use merkle_hasher::peaks::list_peaks;
use merkle_walks::collision::Collision;
use merkle_walks::nodes::Hashes;
use merkle_walks::scattered::{LeafProof, walk_all};
use merkle_walks::top::{Shape, Top, above_peaks};
use std::alloc::{AllocError, Global};

// Returns the locations of leaves.
fn list_locations<F: Family, T>(
    alloc: Global,
    leaves: &[(T, Location<F>)],
) -> Result<Vec<Location<F>>, AllocError>
    ensures { IfOk result (λ v. v.items ≡ map (λ l. l.1) leaves.now) }
{
    let mut locations = Vec::with_capacity(alloc, leaves.len())?;
    for leaf in leaves {
        locations.push(leaf.1)?;
    }
    Ok(locations)
}

// Returns the digests of leaves.
fn list_digests<F: Family, D: Digest>(
    alloc: Global,
    leaves: &[(D, Location<F>)],
) -> Result<Vec<D>, AllocError>
    ensures { IfOk result (λ v. v.items ≡ map (λ l. l.0) leaves.now) }
{
    let mut digests = Vec::with_capacity(alloc, leaves.len())?;
    for leaf in leaves {
        digests.push(leaf.0)?;
    }
    Ok(digests)
}

// Returns the positions that a proof of the leaves at these locations reads; without locations there
// are none.
fn read_positions<F: Family>(
    alloc: Global,
    leaves: Location<F>,
    locations: &[Location<F>],
) -> Result<Vec<Position<F>>, Error<F>>
    requires { 0 < length locations.now → AreLocations F.MAX_LEAVES leaves locations.now }
    ensures positions { IfOk result (λ v. v.items ≡ multi_positions F.rule leaves locations.now) }
    ensures rises { IfOk result (λ v. IsStrictlyIncreasing v.items) }
    ensures refused { IsOkUnless result Error.OutOfMemory }
{
    if locations.is_empty() {
        return Ok(Vec::new(alloc));
    }
    match multi_proof_positions(alloc, leaves, locations) {
        Ok(positions) => Ok(positions),
        Err(error) => Err(error),
    }
}

// Whether locations are refused, or a proof of these leaves has another number of digests.
fn are_places_refused<F: Family>(
    alloc: Global,
    leaves: Location<F>,
    locations: &[Location<F>],
    digests: usize,
) -> Result<bool, AllocError>
    ensures { IfOk result (λ yes. IsTrue yes → AreLocations F.MAX_LEAVES leaves locations.now
        → length (multi_positions F.rule leaves locations.now) ≢ digests) }
{
    match multi_proof_positions(alloc, leaves, locations) {
        Ok(positions) => Ok(positions.len() != digests),
        Err(error) => match error {
            Error::OutOfMemory => Err(AllocError),
            _ => Ok(true),
        },
    }
}

/// Whether the shape of an input of a check of scattered leaves is refused, so that it is accepted
/// against no root. Nothing is hashed.
///
/// # Errors
///
/// - `AllocError` if a memory request is refused
pub fn is_shape_refused<F: Family, D: Digest, T>(
    proof: &Proof<F, D>,
    leaves: &[(T, Location<F>)],
) -> Result<bool, AllocError>
    ensures { IfOk result (λ yes. IsTrue yes → (s : Scheme D) (ls : List (D × ℕ)) (root : D) → s.rule ≡ F.rule → s.max_leaves ≡ F.MAX_LEAVES
        → map (λ l. l.1) ls ≡ map (λ l. l.1) leaves.now → ¬ (AcceptsMulti s (multi_digest_input_of proof.now ls) root)) }
{
    if proof.leaves.is_valid() && proof.inactive_peaks > peak_count(proof.leaves) {
        return Ok(true);
    }
    if leaves.is_empty() {
        return Ok(proof.leaves.as_u64() > 0 || !proof.digests.is_empty());
    }
    let alloc = *proof.digests.allocator();
    let locations = list_locations(alloc, leaves)?;
    are_places_refused(alloc, proof.leaves, &locations, proof.digests.len())
}

/// Returns the digests of the leaves with these elements, each with its location, or `None` if a
/// location is past the greatest leaf count.
///
/// # Errors
///
/// - `AllocError` if a memory request is refused
pub fn located_digests<F: Family, H: Hasher<F>>(
    alloc: Global,
    hasher: &H,
    elements: &[(&[u8], Location<F>)],
) -> Result<Option<Vec<(H::Digest, Location<F>)>>, AllocError>
    ensures some { IfOk result (λ o. IfSome o (λ v. v.items ≡ digested (H.hashing hasher.now) F.rule elements.now)) }
    ensures none { IfOk result (λ o. IfNone o (¬ (AllByRecursion (λ e. e.1 ≤ F.MAX_LEAVES) elements.now))) }
{
    let mut leaves = Vec::with_capacity(alloc, elements.len())?;
    for element in elements {
        if !element.1.is_valid() {
            return Ok(None);
        }
        let position = F::location_to_position(element.1);
        leaves.push((hasher.leaf_digest(position, element.0), element.1))?;
    }
    Ok(Some(leaves))
}

/// Returns what is hashed for an accepted input above the peaks, and the first node where what is
/// hashed for it differs from what is listed.
///
/// Requires that the check accepts the input against some root.
///
/// # Errors
///
/// - `OutOfMemory` if a memory request is refused
pub fn accepted<F: Family, H: Hasher<F>, B: Hashes<F, H::Digest>>(
    hasher: &H,
    proof: &Proof<F, H::Digest>,
    leaves: &[(H::Digest, Location<F>)],
    listed: &B,
) -> Result<(Top<F, H::Digest>, Option<Collision<F, H::Digest>>), Error<F>>
    requires { let s = H.scheme hasher.now in (root : H.Digest) × AcceptsMulti s (multi_digest_input_of proof.now leaves.now) root }
    ensures top { let s = H.scheme hasher.now in let r = multi_digest_input_of proof.now leaves.now in
        IfOk result (λ c. top_of c.0 ≡ top_inputs s r.leaves r.inactive (map (multi_digest s r) (peaks_of s.rule r.leaves))) }
    ensures below { let s = H.scheme hasher.now in let r = multi_digest_input_of proof.now leaves.now in
        IfOk result (λ c. (g : theory.Place → Option (theory.Input H.Digest)) → AllByRecursion (Lists (B.hashed listed.now) g) (peaks_of s.rule r.leaves)
        → option_map located c.1 ≡ looked_up (is_difference s.hashing) (flat_map node_places (peaks_of s.rule r.leaves)) (input_at (multi_inputs s r)) g) }
    ensures refused { IsOkUnless result Error.OutOfMemory }
{
    let alloc = *proof.digests.allocator();
    let locations = list_locations(alloc, leaves)?;
    let positions = match read_positions(alloc, proof.leaves, &locations) {
        Ok(positions) => positions,
        Err(error) => return Err(error),
    };
    let leaf_digests = list_digests(alloc, leaves)?;
    let given = LeafProof {
        positions: &positions,
        digests: &proof.digests,
        locations: &locations,
        leaves: &leaf_digests,
    };
    let peaks = list_peaks(alloc, proof.leaves)?;
    let mut digests = Vec::with_capacity(alloc, peaks.len())?;
    let below = walk_all(hasher, &given, listed, &peaks, &mut digests)?;
    let inactive = proof.inactive_peaks;
    let shape = Shape {
        leaves: proof.leaves,
        inactive,
        apart: inactive,
        number: 1,
    };
    let Ok(top) = above_peaks(alloc, hasher, &shape, &digests) else {
        return Err(Error::OutOfMemory);
    };
    Ok((top, below))
}
