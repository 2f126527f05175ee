//! The checks, over proofs, roots and the digests of leaves that are given as bytes.
ghost use Rattle.merkle_base.specs.Scheme.{scheme_of};
ghost use Rattle.merkle_verifier.specs.Answers.{IsLeafDigestAnswer, IsRangeDigestsAnswer, IsScatteredDigestsAnswer};
ghost use Rattle.merkle_verifier.specs.Answers.{IsPinnedDigestsAnswer, IsGrowthDigestsAnswer};
ghost use Rattle.merkle_sha256.specs.PlainHashings.{sha256_hashing};

use crate::answer::{ACCEPTED, NOT_A_DIGEST, OUT_OF_MEMORY, REJECTED, WRONG_LENGTHS};
use crate::checks::{OldRoot, gives_root};
use crate::parts::{locate, read_digests};
use crate::read::read_proof;
use merkle_base::family::Family;
use merkle_base::location::Location;
use merkle_digest::digest::Digest;
use merkle_leaves::standard::Standard;
use merkle_sha256::sha256::{Sha256Digest, Sha256Plain};
use std::alloc::Global;

/// Answers whether the leaf at a location of the list behind a root has a digest.
pub(crate) fn check_leaf_digest<F: Family>(
    alloc: Global,
    hasher: &Standard<Sha256Plain>,
    root: &[u8],
    proof: &[u8],
    location: u64,
    digest: &[u8],
) -> u32
    ensures { let s = scheme_of sha256_hashing hasher.now F.rule F.MAX_LEAVES F.DOMAIN in
        IsLeafDigestAnswer s root.now proof.now location digest.now result }
{
    let Some(root) = Sha256Digest::from_bytes(root) else {
        return NOT_A_DIGEST;
    };
    let Some(leaf) = Sha256Digest::from_bytes(digest) else {
        return NOT_A_DIGEST;
    };
    let proof = match read_proof::<F>(alloc, proof) {
        Ok(proof) => proof,
        Err(error) => return error.answer(),
    };
    match proof.verify_leaf_digest_inclusion(hasher, &leaf, Location::new(location), &root) {
        Ok(true) => ACCEPTED,
        Ok(false) => REJECTED,
        Err(_) => OUT_OF_MEMORY,
    }
}

/// Answers whether the leaves from a location on of the list behind a root have these digests.
pub(crate) fn check_range_digests<F: Family>(
    alloc: Global,
    hasher: &Standard<Sha256Plain>,
    root: &[u8],
    proof: &[u8],
    start: u64,
    digests: &[u8],
) -> u32
    ensures { let s = scheme_of sha256_hashing hasher.now F.rule F.MAX_LEAVES F.DOMAIN in
        IsRangeDigestsAnswer s root.now proof.now start digests.now result }
{
    let Some(root) = Sha256Digest::from_bytes(root) else {
        return NOT_A_DIGEST;
    };
    let leaves = match read_digests(alloc, digests) {
        Ok(Some(leaves)) => leaves,
        Ok(None) => return NOT_A_DIGEST,
        Err(_) => return OUT_OF_MEMORY,
    };
    let proof = match read_proof::<F>(alloc, proof) {
        Ok(proof) => proof,
        Err(error) => return error.answer(),
    };
    match proof.verify_leaf_digests_inclusion(hasher, &leaves, Location::new(start), &root) {
        Ok(true) => ACCEPTED,
        Ok(false) => REJECTED,
        Err(_) => OUT_OF_MEMORY,
    }
}

/// Answers whether the leaves, each at its location, of the list behind a root have these digests.
pub(crate) fn check_scattered_digests<F: Family>(
    alloc: Global,
    hasher: &Standard<Sha256Plain>,
    root: &[u8],
    proof: &[u8],
    locations: &[u64],
    digests: &[u8],
) -> u32
    ensures { let s = scheme_of sha256_hashing hasher.now F.rule F.MAX_LEAVES F.DOMAIN in
        IsScatteredDigestsAnswer s root.now proof.now locations.now digests.now result }
{
    let Some(root) = Sha256Digest::from_bytes(root) else {
        return NOT_A_DIGEST;
    };
    let leaves = match read_digests(alloc, digests) {
        Ok(Some(leaves)) => leaves,
        Ok(None) => return NOT_A_DIGEST,
        Err(_) => return OUT_OF_MEMORY,
    };
    if locations.len() != leaves.len() {
        return WRONG_LENGTHS;
    }
    let Ok(located) = locate(alloc, &leaves, locations) else {
        return OUT_OF_MEMORY;
    };
    let proof = match read_proof::<F>(alloc, proof) {
        Ok(proof) => proof,
        Err(error) => return error.answer(),
    };
    match proof.verify_multi_leaf_digests_inclusion(hasher, &located, &root) {
        Ok(true) => ACCEPTED,
        Ok(false) => REJECTED,
        Err(_) => OUT_OF_MEMORY,
    }
}

// Answers whether the list behind a root begins with the leaves behind an older root, followed by leaves with these digests.
fn check_pinned_digests<F: Family>(
    alloc: Global,
    hasher: &Standard<Sha256Plain>,
    old: &OldRoot<'_>,
    root: &Sha256Digest,
    proof: &[u8],
    digests: &[u8],
) -> u32
    ensures { let s = scheme_of sha256_hashing hasher.now F.rule F.MAX_LEAVES F.DOMAIN in let o = old.now in
        IsPinnedDigestsAnswer s o.leaves o.inactive_peaks o.root.now o.pins.now root.now proof.now digests.now result }
{
    let Some(old_root) = Sha256Digest::from_bytes(old.root) else {
        return NOT_A_DIGEST;
    };
    let pins = match read_digests(alloc, old.pins) {
        Ok(Some(pins)) => pins,
        Ok(None) => return NOT_A_DIGEST,
        Err(_) => return OUT_OF_MEMORY,
    };
    let leaves = match read_digests(alloc, digests) {
        Ok(Some(leaves)) => leaves,
        Ok(None) => return NOT_A_DIGEST,
        Err(_) => return OUT_OF_MEMORY,
    };
    let proof = match read_proof::<F>(alloc, proof) {
        Ok(proof) => proof,
        Err(error) => return error.answer(),
    };
    let start = Location::new(old.leaves);
    if !gives_root(hasher, &old_root, start, old.inactive_peaks, &pins) {
        return REJECTED;
    }
    match proof.verify_leaf_digests_and_pinned_nodes(hasher, &leaves, start, &pins, root) {
        Ok(true) => ACCEPTED,
        Ok(false) => REJECTED,
        Err(_) => OUT_OF_MEMORY,
    }
}

/// Answers whether the list behind a root begins with the leaves behind an older root, followed by leaves with these digests.
pub(crate) fn check_growth_digests<F: Family>(
    alloc: Global,
    hasher: &Standard<Sha256Plain>,
    old: &OldRoot<'_>,
    root: &[u8],
    proof: &[u8],
    digests: &[u8],
) -> u32
    ensures { let s = scheme_of sha256_hashing hasher.now F.rule F.MAX_LEAVES F.DOMAIN in let o = old.now in
        IsGrowthDigestsAnswer s o.leaves o.inactive_peaks o.root.now o.pins.now root.now proof.now digests.now result }
{
    let Some(root) = Sha256Digest::from_bytes(root) else {
        return NOT_A_DIGEST;
    };
    check_pinned_digests::<F>(alloc, hasher, old, &root, proof, digests)
}
