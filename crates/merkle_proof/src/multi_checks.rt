//! Checks of scattered leaves against a root.
ghost use Rattle.std.specs.Prelude.{◌≡◌, ◌≢◌, ◌<◌, [], ◌↔◌, IsTrue, IfOk, IfSome, IsNone, length, map};
ghost use Rattle.std.specs.List.Sorted.{IsStrictlyIncreasing};
ghost use Rattle.merkle_claim_theory.specs.Multiproof.{AcceptsMultiCases, multi_positions};
ghost use Rattle.merkle_proof.specs.Input.{by_location, located_input, multi_digest_input, multi_input};
ghost use Rattle.merkle_scattered.specs.Confirmed.{locations_of};
ghost use Rattle.merkle_scattered.specs.MultiPositions.{AreLocations};

use crate::leaves::located_digests;
use crate::multi::multi_proof_positions;
use merkle_base::error::{Error, OutOfMemory};
use merkle_base::family::Family;
use merkle_base::location::Location;
use merkle_base::position::Position;
use merkle_digest::digest::Digest;
use merkle_hasher::hasher::Hasher;
use merkle_range::checks::{ProofParts, reconstruct_empty_root};
use merkle_scattered::confirm::confirm_peaks;
use merkle_scattered::supplied::SuppliedDigests;
use std::alloc::{AllocError, Global};

/// Whether the elements, each at its location, lead to `root`.
pub(crate) fn verify_multi<F: Family, H: Hasher<F>>(
    parts: &ProofParts<'_, F, H::Digest>,
    hasher: &H,
    elements: &[(&[u8], Location<F>)],
    root: &H::Digest,
) -> Result<bool, OutOfMemory>
    ensures { let s = H.scheme hasher.now in
        let r = multi_input s parts.now.leaves parts.now.inactive parts.now.digests.now elements.now in
        IfOk result (λ yes. IsTrue yes ↔ AcceptsMultiCases s r root.now) }
{
    if elements.is_empty() {
        return Ok(verify_empty(parts, hasher, root));
    }
    verify_elements(parts, hasher, elements, root)
}

/// Whether the leaves with these digests, each at its location, lead to `root`.
pub(crate) fn verify_multi_leaf_digests<F: Family, H: Hasher<F>>(
    parts: &ProofParts<'_, F, H::Digest>,
    hasher: &H,
    leaves: &[(H::Digest, Location<F>)],
    root: &H::Digest,
) -> Result<bool, OutOfMemory>
    ensures { let s = H.scheme hasher.now in
        let r = multi_digest_input parts.now.leaves parts.now.inactive parts.now.digests.now leaves.now in
        IfOk result (λ yes. IsTrue yes ↔ AcceptsMultiCases s r root.now) }
{
    if leaves.is_empty() {
        return Ok(verify_empty(parts, hasher, root));
    }
    verify_leaf_digests(parts, hasher, leaves, root)
}

// Whether the proof is empty and `root` is the root of no leaves.
fn verify_empty<F: Family, H: Hasher<F>>(
    parts: &ProofParts<'_, F, H::Digest>,
    hasher: &H,
    root: &H::Digest,
) -> bool
    ensures { let s = H.scheme hasher.now in
        IsTrue result ↔ AcceptsMultiCases s (multi_digest_input parts.now.leaves parts.now.inactive parts.now.digests.now []) root.now }
{
    match reconstruct_empty_root(parts, hasher, Location::new(0)) {
        Ok(computed) => computed == *root,
        Err(_) => false,
    }
}

// Whether the elements, of which there is at least one, lead to `root`.
fn verify_elements<F: Family, H: Hasher<F>>(
    parts: &ProofParts<'_, F, H::Digest>,
    hasher: &H,
    elements: &[(&[u8], Location<F>)],
    root: &H::Digest,
) -> Result<bool, OutOfMemory>
    requires nonempty { 0 < length elements.now }
    ensures { let s = H.scheme hasher.now in
        let r = multi_input s parts.now.leaves parts.now.inactive parts.now.digests.now elements.now in
        IfOk result (λ yes. IsTrue yes ↔ AcceptsMultiCases s r root.now) }
{
    let Ok(locations) = list_locations(parts.alloc, elements) else {
        return Err(OutOfMemory);
    };
    let Some(positions) = read_positions(parts, &locations)? else {
        return Ok(false);
    };
    let Ok(located) = located_digests(parts.alloc, hasher, elements) else {
        return Err(OutOfMemory);
    };
    verify_located(parts, hasher, &positions, &located, root)
}

// Whether the leaves, of which there is at least one, lead to `root`.
fn verify_leaf_digests<F: Family, H: Hasher<F>>(
    parts: &ProofParts<'_, F, H::Digest>,
    hasher: &H,
    leaves: &[(H::Digest, Location<F>)],
    root: &H::Digest,
) -> Result<bool, OutOfMemory>
    requires nonempty { 0 < length leaves.now }
    ensures { let s = H.scheme hasher.now in
        let r = multi_digest_input parts.now.leaves parts.now.inactive parts.now.digests.now leaves.now in
        IfOk result (λ yes. IsTrue yes ↔ AcceptsMultiCases s r root.now) }
{
    let Ok(locations) = list_locations(parts.alloc, leaves) else {
        return Err(OutOfMemory);
    };
    let Some(positions) = read_positions(parts, &locations)? else {
        return Ok(false);
    };
    let Ok(located) = list_located(parts.alloc, leaves) else {
        return Err(OutOfMemory);
    };
    verify_located(parts, hasher, &positions, &located, root)
}

// Whether the leaves in `located`, whose proof reads `positions`, lead to `root`.
fn verify_located<F: Family, H: Hasher<F>>(
    parts: &ProofParts<'_, F, H::Digest>,
    hasher: &H,
    positions: &[Position<F>],
    located: &[(Location<F>, H::Digest)],
    root: &H::Digest,
) -> Result<bool, OutOfMemory>
    requires within { AreLocations F.MAX_LEAVES parts.now.leaves (locations_of located.now) }
    requires positions { positions.now ≡ multi_positions F.rule parts.now.leaves (locations_of located.now) }
    requires rises { IsStrictlyIncreasing positions.now }
    requires count { length positions.now ≡ length parts.now.digests.now }
    ensures { let s = H.scheme hasher.now in
        let r = located_input parts.now.leaves parts.now.inactive parts.now.digests.now located.now in
        IfOk result (λ yes. IsTrue yes ↔ AcceptsMultiCases s r root.now) }
{
    let told = SuppliedDigests {
        positions,
        digests: parts.digests,
    };
    let Ok(confirmed) = confirm_peaks(parts.alloc, parts.leaves, hasher, &told, located) else {
        return Err(OutOfMemory);
    };
    let Some(peaks) = confirmed else {
        return Ok(false);
    };
    match hasher.root_with_folded_peaks(parts.leaves, parts.inactive, parts.inactive, &peaks) {
        Some(computed) => Ok(computed == *root),
        None => Ok(false),
    }
}

// Returns the positions that a proof of the leaves at `locations` reads; `None` if the locations do
// not strictly ascend or are not those of leaves, or if there are more or fewer digests.
fn read_positions<F: Family, D: Digest>(
    parts: &ProofParts<'_, F, D>,
    locations: &[Location<F>],
) -> Result<Option<Vec<Position<F>>>, OutOfMemory>
    ensures some { IfOk result (λ o. IfSome o (λ v. v.items ≡ multi_positions F.rule parts.now.leaves locations.now)) }
    ensures rises { IfOk result (λ o. IfSome o (λ v. IsStrictlyIncreasing v.items)) }
    ensures within { IfOk result (λ o. IfSome o (λ _. AreLocations F.MAX_LEAVES parts.now.leaves locations.now)) }
    ensures count { IfOk result (λ o. IfSome o (λ v. length v.items ≡ length parts.now.digests.now)) }
    ensures none { IfOk result (λ o. IsNone o → AreLocations F.MAX_LEAVES parts.now.leaves locations.now
        → length (multi_positions F.rule parts.now.leaves locations.now) ≢ length parts.now.digests.now) }
{
    match multi_proof_positions(parts.alloc, parts.leaves, locations) {
        Ok(positions) => {
            if positions.len() != parts.digests.len() {
                return Ok(None);
            }
            Ok(Some(positions))
        }
        Err(error) => match error {
            Error::OutOfMemory => Err(OutOfMemory),
            _ => Ok(None),
        },
    }
}

// Returns the locations of elements or leaves.
fn list_locations<F: Family, T>(
    alloc: Global,
    items: &[(T, Location<F>)],
) -> Result<Vec<Location<F>>, AllocError>
    ensures { IfOk result (λ v. v.items ≡ map (λ e. e.1) items.now) }
{
    let mut locations = Vec::with_capacity(alloc, items.len())?;
    for item in items {
        locations.push(item.1)?;
    }
    Ok(locations)
}

// Returns the locations of the leaves, each with the digest of its leaf.
fn list_located<F: Family, D: Digest>(
    alloc: Global,
    leaves: &[(D, Location<F>)],
) -> Result<Vec<(Location<F>, D)>, AllocError>
    ensures { IfOk result (λ v. v.items ≡ by_location leaves.now) }
{
    let mut located = Vec::with_capacity(alloc, leaves.len())?;
    for leaf in leaves {
        located.push((leaf.1, leaf.0))?;
    }
    Ok(located)
}
