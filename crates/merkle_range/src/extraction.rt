//! The node digests that a check of a range computes or is given.
ghost use Rattle.std.specs.Prelude.{◌≡◌, ◌+◌, ◌<◌, ◌≤◌, ◌≢◌, ◌⊎◌, ℕ, List, Some, Ok, Err, IfOk, IfErr, IsOkAnd, length, map, drop, take, min};
ghost use Rattle.merkle_base.specs.Tree.{Tree, position};
ghost use Rattle.merkle_base.specs.Hashing.{Hashing};
ghost use Rattle.merkle_base.specs.Places.{wholly_before};
ghost use Rattle.merkle_root_theory.specs.Extract.{single_pairs, extracted};
ghost use Rattle.merkle_root_theory.specs.Range.{wholly_after};
ghost use Rattle.merkle_root_theory.specs.Reconstruction.{range_refusals, reconstructed};
ghost use Rattle.merkle_range.specs.Extracting.{RefusesExtraction};
ghost use Rattle.merkle_base.specs.Cases.{first_case};
ghost use Rattle.merkle_hasher.specs.LeafDigests.{bytes_of};
ghost use Rattle.merkle_range.specs.GroupedPeaks.{HoldsGroups};
ghost use Rattle.merkle_range.specs.Input.{IsComputed, digest_input_of_parts, input_of_parts};
ghost use Rattle.merkle_claim_theory.specs.CheckAnswers.{IsExtraction};

use crate::checks::{
    ProofParts, reconstruct_empty_root, reconstruct_root_into, root_of_leaf_digests_into,
};
use crate::groups::PeakGroups;
use crate::layout::Layout;
use merkle_base::error::{Error, ReconstructionError};
use merkle_base::family::Family;
use merkle_base::location::Location;
use merkle_base::position::Position;
use merkle_digest::digest::Digest;
use merkle_hasher::hasher::Hasher;
use merkle_reconstruction::collector::Collector;
use std::alloc::AllocError;

/// Checks that the elements lead to `root`, and returns the digests of the nodes that the check
/// computes or is given, with their positions.
///
/// # Errors
///
/// The first that applies:
/// - `InvalidProof` if [`reconstruct_root`](crate::checks::reconstruct_root) returns an error
/// - `RootMismatch` if the computed root differs from `root`
///
/// `OutOfMemory` at any point if a memory request is refused.
pub fn verify_and_extract<F: Family, H: Hasher<F>>(
    parts: &ProofParts<'_, F, H::Digest>,
    hasher: &H,
    elements: &[&[u8]],
    start: Location<F>,
    root: &H::Digest,
) -> Result<Vec<(Position<F>, H::Digest)>, Error<F>>
    ensures ok { let s = H.scheme hasher.now in IfOk result (λ v. IsExtraction s root.now (input_of_parts s parts.now start (bytes_of elements.now)) v.items) }
    ensures err { let s = H.scheme hasher.now in IfErr result (RefusesExtraction s (input_of_parts s parts.now start (bytes_of elements.now)) root.now) }
{
    pairs_for(reconstruct_or_extract(parts, hasher, elements, start), root)
}

/// Checks that the leaves with these digests lead to `root`, and returns the digests of the nodes
/// that the check computes or is given, with their positions.
///
/// Fails as [`verify_and_extract`], with leaves for elements.
pub fn verify_leaf_digests_and_extract<F: Family, H: Hasher<F>>(
    parts: &ProofParts<'_, F, H::Digest>,
    hasher: &H,
    leaves: &[H::Digest],
    start: Location<F>,
    root: &H::Digest,
) -> Result<Vec<(Position<F>, H::Digest)>, Error<F>>
    ensures ok { let s = H.scheme hasher.now in IfOk result (λ v. IsExtraction s root.now (digest_input_of_parts parts.now start leaves.now) v.items) }
    ensures err { let s = H.scheme hasher.now in IfErr result (RefusesExtraction s (digest_input_of_parts parts.now start leaves.now) root.now) }
{
    pairs_for(extract_leaf_digests(parts, hasher, leaves, start), root)
}

// The pairs of an outcome whose root is `root`.
fn pairs_for<F: Family, D: Digest>(
    outcome: Result<(D, Vec<(Position<F>, D)>), ReconstructionError>,
    root: &D,
) -> Result<Vec<(Position<F>, D)>, Error<F>>
    ensures ok { IfOk result (λ v. outcome ≡ Ok (root.now, v)) }
    ensures err { IfErr result (λ e. e ≢ Error.OutOfMemory
        → ((x : ReconstructionError) × (x ≢ ReconstructionError.OutOfMemory) × (outcome ≡ Err x) × (e ≡ Error.InvalidProof))
        ⊎ IsOkAnd outcome (λ found. (found.0 ≢ root.now) × (e ≡ Error.RootMismatch))) }
{
    match outcome {
        Ok((computed, pairs)) => {
            if computed != *root {
                return Err(Error::RootMismatch);
            }
            Ok(pairs)
        }
        Err(error) => match error {
            ReconstructionError::OutOfMemory => Err(Error::OutOfMemory),
            _ => Err(Error::InvalidProof),
        },
    }
}

// Computes the root that the elements lead to, and the pairs; without elements, the root of no
// leaves and no pairs.
fn reconstruct_or_extract<F: Family, H: Hasher<F>>(
    parts: &ProofParts<'_, F, H::Digest>,
    hasher: &H,
    elements: &[&[u8]],
    start: Location<F>,
) -> Result<(H::Digest, Vec<(Position<F>, H::Digest)>), ReconstructionError>
    ensures ok { let s = H.scheme hasher.now in
        let r = input_of_parts s parts.now start (bytes_of elements.now) in
        IfOk result (λ found. (reconstructed s r ≡ Ok found.0) × (found.1.items ≡ extracted s r)) }
    ensures err { let s = H.scheme hasher.now in
        let r = input_of_parts s parts.now start (bytes_of elements.now) in
        IfErr result (λ e. e ≢ ReconstructionError.OutOfMemory → reconstructed s r ≡ Err e) }
{
    if elements.is_empty() {
        let root = reconstruct_empty_root(parts, hasher, start)?;
        return Ok((root, Vec::new(parts.alloc)));
    }
    reconstruct_and_extract(parts, hasher, elements, start)
}

// Computes the root that the leaves with these digests lead to, and the pairs; without leaves, the
// root of no leaves and no pairs.
fn extract_leaf_digests<F: Family, H: Hasher<F>>(
    parts: &ProofParts<'_, F, H::Digest>,
    hasher: &H,
    leaves: &[H::Digest],
    start: Location<F>,
) -> Result<(H::Digest, Vec<(Position<F>, H::Digest)>), ReconstructionError>
    ensures ok { let s = H.scheme hasher.now in
        let r = digest_input_of_parts parts.now start leaves.now in
        IfOk result (λ found. (reconstructed s r ≡ Ok found.0) × (found.1.items ≡ extracted s r)) }
    ensures err { let s = H.scheme hasher.now in
        let r = digest_input_of_parts parts.now start leaves.now in
        IfErr result (λ e. e ≢ ReconstructionError.OutOfMemory → reconstructed s r ≡ Err e) }
{
    let mut pairs = Vec::new(parts.alloc);
    if leaves.is_empty() {
        let root = reconstruct_empty_root(parts, hasher, start)?;
        return Ok((root, pairs));
    }
    let root = root_of_leaf_digests_into(parts, hasher, leaves, start, &mut pairs)?;
    Ok((root, pairs))
}

/// Computes the root that the elements, which are at least one, lead to, and the digests of the
/// nodes that are computed or given on the way, with their positions.
///
/// The pairs are those of the individual peaks before the range, of the peaks that overlap it, each
/// after the pairs below it, and of the individual peaks after the range. The pairs below a node
/// that overlaps the range and is not a leaf are those below its left child, those below its right
/// child, the left child's and the right child's. A digest to which several peaks are folded is not
/// among them.
///
/// Fails as [`reconstruct_root`](crate::checks::reconstruct_root).
pub(crate) fn reconstruct_and_extract<F: Family, H: Hasher<F>>(
    parts: &ProofParts<'_, F, H::Digest>,
    hasher: &H,
    elements: &[&[u8]],
    start: Location<F>,
) -> Result<(H::Digest, Vec<(Position<F>, H::Digest)>), ReconstructionError>
    requires nonempty { 0 < length elements.now }
    ensures ok { let s = H.scheme hasher.now in
        let r = input_of_parts s parts.now start (bytes_of elements.now) in
        IfOk result (λ found. IsComputed s r found.0) }
    ensures pairs { let s = H.scheme hasher.now in
        let r = input_of_parts s parts.now start (bytes_of elements.now) in
        IfOk result (λ found. found.1.items ≡ extracted s r) }
    ensures err { let s = H.scheme hasher.now in
        let r = input_of_parts s parts.now start (bytes_of elements.now) in
        IfErr result (λ e. e ≢ ReconstructionError.OutOfMemory → first_case (range_refusals s r) ≡ Some e) }
{
    let mut pairs = Vec::new(parts.alloc);
    let root = reconstruct_root_into(parts, hasher, elements, start, &mut pairs)?;
    Ok((root, pairs))
}

/// Passes the digests of the individual peaks before the range, which the proof gives, to a
/// collector.
pub(crate) fn put_before<F: Family, D: Digest, C: Collector<F, D>>(
    groups: &PeakGroups<F>,
    layout: Layout,
    digests: &[D],
    collector: &mut C,
) -> Result<(), AllocError>
    requires prefix { layout.prefix ≤ groups.now.before }
    requires before { groups.now.before ≤ length groups.now.outside.items }
    ensures { IfOk result (λ _. (h : Hashing D) (a b : ℕ) (ts us : List Tree) → HoldsGroups a b groups.now ts → us ≡ drop layout.prefix (wholly_before a ts)
        → min layout.prefix 1 + length us ≤ length digests.now
        → C.Took collector.old (single_pairs h us (drop (min layout.prefix 1) digests.now)) collector.new) }
{
    let Some((_, individual)) = digests.split_at_checked(layout.prefix.min(1)) else {
        return Ok(());
    };
    put_each(
        &groups.outside[layout.prefix..groups.before],
        individual,
        collector,
    )?;
    Ok(())
}

/// Passes the digests of the individual peaks after the range, which the proof gives, to a
/// collector.
pub(crate) fn put_after<F: Family, D: Digest, C: Collector<F, D>>(
    groups: &PeakGroups<F>,
    layout: Layout,
    digests: &[D],
    collector: &mut C,
) -> Result<(), AllocError>
    requires single { groups.now.before + layout.single ≤ length groups.now.outside.items }
    ensures { IfOk result (λ _. (h : Hashing D) (a b : ℕ) (ts us : List Tree) → HoldsGroups a b groups.now ts → us ≡ take layout.single (wholly_after b ts)
        → layout.before + length us ≤ length digests.now → C.Took collector.old (single_pairs h us (drop layout.before digests.now)) collector.new) }
{
    let Some((_, individual)) = digests.split_at_checked(layout.before) else {
        return Ok(());
    };
    let end = groups.before + layout.single;
    put_each(&groups.outside[groups.before..end], individual, collector)?;
    Ok(())
}

// Passes the digests to a collector, each with the position at the same index; surplus positions or
// digests are ignored.
fn put_each<F: Family, D: Digest, C: Collector<F, D>>(
    positions: &[Position<F>],
    digests: &[D],
    collector: &mut C,
) -> Result<(), AllocError>
    ensures { IfOk result (λ _. (h : Hashing D) (ts : List Tree) → positions.now ≡ map position ts → length ts ≤ length digests.now
        → C.Took collector.old (single_pairs h ts digests.now) collector.new) }
{
    let mut rest = digests;
    for position in positions {
        let Some((digest, others)) = rest.split_first() else {
            return Ok(());
        };
        collector.put(*position, digest)?;
        rest = others;
    }
    Ok(())
}
