//! The checks, over proofs, roots and elements that are given as bytes.
ghost use Rattle.std.specs.Prelude.{◌≡◌, ◌↔◌, IsTrue};
ghost use Rattle.merkle_base.specs.Scheme.{scheme_of};
ghost use Rattle.merkle_claim_theory.specs.CheckAnswers.{GivesRoot};
ghost use Rattle.merkle_verifier.specs.Answers.{IsElementAnswer, IsRangeAnswer, IsScatteredAnswer, IsPinnedAnswer, IsGrowthAnswer};
ghost use Rattle.merkle_sha256.specs.PlainHashings.{sha256_hashing};

use crate::answer::{ACCEPTED, NOT_A_DIGEST, OUT_OF_MEMORY, REJECTED, WRONG_LENGTHS};
use crate::parts::{cut, locate, read_digests};
use crate::read::read_proof;
use merkle_base::family::Family;
use merkle_base::location::Location;
use merkle_digest::digest::Digest;
use merkle_hasher::hasher::Hasher;
use merkle_leaves::standard::Standard;
use merkle_sha256::sha256::{Sha256Digest, Sha256Plain};
use std::alloc::Global;

/// A root that is trusted, and what it was made for.
#[derive(Drop)]
pub(crate) struct OldRoot<'a> {
    /// The number of leaves.
    pub leaves: u64,
    /// The number of inactive peaks.
    pub inactive_peaks: usize,
    /// The bytes of the root.
    pub root: &'a [u8],
    /// The bytes of the digests of the peaks over the leaves, oldest first.
    pub pins: &'a [u8],
}

/// Elements in one buffer.
#[derive(Drop)]
pub(crate) struct Elements<'a> {
    /// Their bytes, one after another.
    pub bytes: &'a [u8],
    /// The length of each.
    pub lengths: &'a [usize],
}

/// Answers whether an element is the leaf at a location of the list behind a root.
pub(crate) fn check_element<F: Family>(
    alloc: Global,
    hasher: &Standard<Sha256Plain>,
    root: &[u8],
    proof: &[u8],
    location: u64,
    element: &[u8],
) -> u32
    ensures { let s = scheme_of sha256_hashing hasher.now F.rule F.MAX_LEAVES F.DOMAIN in
        IsElementAnswer s root.now proof.now location element.now result }
{
    let Some(root) = Sha256Digest::from_bytes(root) else {
        return NOT_A_DIGEST;
    };
    let proof = match read_proof::<F>(alloc, proof) {
        Ok(proof) => proof,
        Err(error) => return error.answer(),
    };
    match proof.verify_element_inclusion(hasher, element, Location::new(location), &root) {
        Ok(true) => ACCEPTED,
        Ok(false) => REJECTED,
        Err(_) => OUT_OF_MEMORY,
    }
}

/// Answers whether elements are the leaves from a location on of the list behind a root.
pub(crate) fn check_range<F: Family>(
    alloc: Global,
    hasher: &Standard<Sha256Plain>,
    root: &[u8],
    proof: &[u8],
    start: u64,
    elements: &Elements<'_>,
) -> u32
    ensures { let s = scheme_of sha256_hashing hasher.now F.rule F.MAX_LEAVES F.DOMAIN in
        IsRangeAnswer s root.now proof.now start elements.now.bytes.now elements.now.lengths.now result }
{
    let Some(root) = Sha256Digest::from_bytes(root) else {
        return NOT_A_DIGEST;
    };
    let elements = match cut(alloc, elements.bytes, elements.lengths) {
        Ok(Some(elements)) => elements,
        Ok(None) => return WRONG_LENGTHS,
        Err(_) => return OUT_OF_MEMORY,
    };
    let proof = match read_proof::<F>(alloc, proof) {
        Ok(proof) => proof,
        Err(error) => return error.answer(),
    };
    match proof.verify_range_inclusion(hasher, &elements, Location::new(start), &root) {
        Ok(true) => ACCEPTED,
        Ok(false) => REJECTED,
        Err(_) => OUT_OF_MEMORY,
    }
}

/// Answers whether elements, each at its location, are leaves of the list behind a root.
pub(crate) fn check_scattered<F: Family>(
    alloc: Global,
    hasher: &Standard<Sha256Plain>,
    root: &[u8],
    proof: &[u8],
    locations: &[u64],
    elements: &Elements<'_>,
) -> u32
    ensures { let s = scheme_of sha256_hashing hasher.now F.rule F.MAX_LEAVES F.DOMAIN in
        IsScatteredAnswer s root.now proof.now locations.now elements.now.bytes.now elements.now.lengths.now result }
{
    let Some(root) = Sha256Digest::from_bytes(root) else {
        return NOT_A_DIGEST;
    };
    if locations.len() != elements.lengths.len() {
        return WRONG_LENGTHS;
    }
    let elements = match cut(alloc, elements.bytes, elements.lengths) {
        Ok(Some(elements)) => elements,
        Ok(None) => return WRONG_LENGTHS,
        Err(_) => return OUT_OF_MEMORY,
    };
    let Ok(located) = locate(alloc, &elements, locations) else {
        return OUT_OF_MEMORY;
    };
    let proof = match read_proof::<F>(alloc, proof) {
        Ok(proof) => proof,
        Err(error) => return error.answer(),
    };
    match proof.verify_multi_inclusion(hasher, &located, &root) {
        Ok(true) => ACCEPTED,
        Ok(false) => REJECTED,
        Err(_) => OUT_OF_MEMORY,
    }
}

/// Whether the digests of the peaks give this root.
pub(crate) fn gives_root<F: Family, H: Hasher<F>>(
    hasher: &H,
    root: &H::Digest,
    leaves: Location<F>,
    inactive_peaks: usize,
    peaks: &[H::Digest],
) -> bool
    ensures { let s = H.scheme hasher.now in
        IsTrue result ↔ GivesRoot s root.now leaves inactive_peaks peaks.now }
{
    match hasher.root(leaves, inactive_peaks, peaks) {
        Ok(given) => given == *root,
        Err(_) => false,
    }
}

// Answers whether the list behind a root begins with the leaves behind an older root, followed by the elements.
fn check_pinned<F: Family>(
    alloc: Global,
    hasher: &Standard<Sha256Plain>,
    old: &OldRoot<'_>,
    root: &Sha256Digest,
    proof: &[u8],
    elements: &Elements<'_>,
) -> u32
    ensures { let s = scheme_of sha256_hashing hasher.now F.rule F.MAX_LEAVES F.DOMAIN in let o = old.now in
        IsPinnedAnswer s o.leaves o.inactive_peaks o.root.now o.pins.now root.now proof.now elements.now.bytes.now elements.now.lengths.now result }
{
    let Some(old_root) = Sha256Digest::from_bytes(old.root) else {
        return NOT_A_DIGEST;
    };
    let pins = match read_digests(alloc, old.pins) {
        Ok(Some(pins)) => pins,
        Ok(None) => return NOT_A_DIGEST,
        Err(_) => return OUT_OF_MEMORY,
    };
    let elements = match cut(alloc, elements.bytes, elements.lengths) {
        Ok(Some(elements)) => elements,
        Ok(None) => return WRONG_LENGTHS,
        Err(_) => return OUT_OF_MEMORY,
    };
    let proof = match read_proof::<F>(alloc, proof) {
        Ok(proof) => proof,
        Err(error) => return error.answer(),
    };
    let leaves = Location::new(old.leaves);
    if !gives_root(hasher, &old_root, leaves, old.inactive_peaks, &pins) {
        return REJECTED;
    }
    match proof.verify_proof_and_pinned_nodes(hasher, &elements, leaves, &pins, root) {
        Ok(true) => ACCEPTED,
        Ok(false) => REJECTED,
        Err(_) => OUT_OF_MEMORY,
    }
}

/// Answers whether the list behind a root begins with the leaves behind an older root, followed by the elements.
pub(crate) fn check_growth<F: Family>(
    alloc: Global,
    hasher: &Standard<Sha256Plain>,
    old: &OldRoot<'_>,
    root: &[u8],
    proof: &[u8],
    elements: &Elements<'_>,
) -> u32
    ensures { let s = scheme_of sha256_hashing hasher.now F.rule F.MAX_LEAVES F.DOMAIN in let o = old.now in
        IsGrowthAnswer s o.leaves o.inactive_peaks o.root.now o.pins.now root.now proof.now elements.now.bytes.now elements.now.lengths.now result }
{
    let Some(root) = Sha256Digest::from_bytes(root) else {
        return NOT_A_DIGEST;
    };
    check_pinned::<F>(alloc, hasher, old, &root, proof, elements)
}
