//! Calls of given proofs.

use crate::checks::{accepts_leaf, accepts_range, accepts_scattered};
use crate::refusal::{granted, refused, unreconstructed};
use crate::values::{digest, digests, located_digests, locations, proof};
use crate::writing::{write_accepted, write_granted_positions, write_pairs};
use merkle_core::digest::Digest;
use merkle_core::family::Family;
use merkle_core::hasher::Hasher;
use merkle_core::location::Location;
use merkle_core::proof::{Proof, multi_proof_positions};
use merkle_core::verification::ProofStore;
use rows_text::answer::Answer;
use rows_text::refusal::{OUT_OF_MEMORY, Refusal};
use rows_text::words::Words;

/// Whether a proof of a range is accepted.
pub fn check<F: Family, H: Hasher<F>>(
    hasher: &H,
    words: &mut Words,
    answer: &mut Answer,
) -> Result<(), Refusal> {
    let proof: Proof<F, H::Digest> = proof(words);
    let start = Location::new(words.number());
    let found = words.elements();
    let root = digest(words);
    let all = words.slices(&found);
    words.end()?;
    write_accepted(answer, accepts_range(hasher, &proof, &all, start, &root))
}

/// Whether a proof of a leaf is accepted.
pub fn check_leaf<F: Family, H: Hasher<F>>(
    hasher: &H,
    words: &mut Words,
    answer: &mut Answer,
) -> Result<(), Refusal> {
    let proof: Proof<F, H::Digest> = proof(words);
    let leaf = Location::new(words.number());
    let element = words.bytes();
    let root = digest(words);
    words.end()?;
    write_accepted(answer, accepts_leaf(hasher, &proof, &element, leaf, &root))
}

/// Whether a proof of a range is accepted with the pins before it.
pub fn check_pinned<F: Family, H: Hasher<F>>(
    hasher: &H,
    words: &mut Words,
    answer: &mut Answer,
) -> Result<(), Refusal> {
    let proof: Proof<F, H::Digest> = proof(words);
    let start = Location::new(words.number());
    let found = words.elements();
    let pins = digests(words);
    let root = digest(words);
    let all = words.slices(&found);
    words.end()?;
    let checked = proof.verify_proof_and_pinned_nodes(hasher, &all, start, &pins, &root);
    write_accepted(answer, checked.ok().ok_or(OUT_OF_MEMORY))
}

/// Whether a proof of leaves anywhere is accepted.
pub fn check_multi<F: Family, H: Hasher<F>>(
    hasher: &H,
    words: &mut Words,
    answer: &mut Answer,
) -> Result<(), Refusal> {
    let proof: Proof<F, H::Digest> = proof(words);
    let found = words.located();
    let root = digest(words);
    words.end()?;
    let accepted = accepts_scattered(words.alloc(), hasher, &proof, &found, &root);
    write_accepted(answer, accepted)
}

/// Whether a proof of a range is accepted with the digests of its leaves.
pub fn check_digests<F: Family, H: Hasher<F>>(
    hasher: &H,
    words: &mut Words,
    answer: &mut Answer,
) -> Result<(), Refusal> {
    let proof: Proof<F, H::Digest> = proof(words);
    let start = Location::new(words.number());
    let leaves = digests(words);
    let root = digest(words);
    words.end()?;
    let checked = proof.verify_leaf_digests_inclusion(hasher, &leaves, start, &root);
    write_accepted(answer, checked.ok().ok_or(OUT_OF_MEMORY))
}

/// Whether a proof of a leaf is accepted with its digest.
pub fn check_leaf_digest<F: Family, H: Hasher<F>>(
    hasher: &H,
    words: &mut Words,
    answer: &mut Answer,
) -> Result<(), Refusal> {
    let proof: Proof<F, H::Digest> = proof(words);
    let location = Location::new(words.number());
    let leaf = digest(words);
    let root = digest(words);
    words.end()?;
    let checked = proof.verify_leaf_digest_inclusion(hasher, &leaf, location, &root);
    write_accepted(answer, checked.ok().ok_or(OUT_OF_MEMORY))
}

/// Whether a proof of a range is accepted with the digests of its leaves and the pins before it.
pub fn check_pinned_digests<F: Family, H: Hasher<F>>(
    hasher: &H,
    words: &mut Words,
    answer: &mut Answer,
) -> Result<(), Refusal> {
    let proof: Proof<F, H::Digest> = proof(words);
    let start = Location::new(words.number());
    let leaves = digests(words);
    let pins = digests(words);
    let root = digest(words);
    words.end()?;
    let checked = proof.verify_leaf_digests_and_pinned_nodes(hasher, &leaves, start, &pins, &root);
    write_accepted(answer, checked.ok().ok_or(OUT_OF_MEMORY))
}

/// Whether a proof of leaves anywhere is accepted with their digests.
pub fn check_multi_digests<F: Family, H: Hasher<F>>(
    hasher: &H,
    words: &mut Words,
    answer: &mut Answer,
) -> Result<(), Refusal> {
    let proof: Proof<F, H::Digest> = proof(words);
    let leaves = located_digests(words);
    let root = digest(words);
    words.end()?;
    let checked = proof.verify_multi_leaf_digests_inclusion(hasher, &leaves, &root);
    write_accepted(answer, checked.ok().ok_or(OUT_OF_MEMORY))
}

/// The positions that a proof of leaves anywhere reads.
pub fn multi_positions<F: Family>(words: &mut Words, answer: &mut Answer) -> Result<(), Refusal> {
    let leaves = Location::new(words.number());
    let list = locations(words);
    words.end()?;
    let positions = multi_proof_positions::<F>(words.alloc(), leaves, &list);
    write_granted_positions(answer, positions)
}

/// The digests that a check of a range computes or is given, each after its position.
pub fn extract<F: Family, H: Hasher<F>>(
    hasher: &H,
    words: &mut Words,
    answer: &mut Answer,
) -> Result<(), Refusal> {
    let proof: Proof<F, H::Digest> = proof(words);
    let start = Location::new(words.number());
    let found = words.elements();
    let root = digest(words);
    let all = words.slices(&found);
    words.end()?;
    match proof.verify_range_inclusion_and_extract_digests(hasher, &all, start, &root) {
        Ok(pairs) => {
            write_pairs(answer, &pairs);
            Ok(())
        }
        Err(error) => Err(refused(&error)),
    }
}

/// The root that a proof and its elements lead to.
pub fn reconstruct<F: Family, H: Hasher<F>>(
    hasher: &H,
    words: &mut Words,
    answer: &mut Answer,
) -> Result<(), Refusal> {
    let proof: Proof<F, H::Digest> = proof(words);
    let start = Location::new(words.number());
    let found = words.elements();
    let all = words.slices(&found);
    words.end()?;
    match proof.reconstruct_root(hasher, &all, start) {
        Ok(root) => {
            answer.bytes(root.as_bytes());
            Ok(())
        }
        Err(error) => Err(unreconstructed(&error)),
    }
}

/// The store of a proof that is accepted with its elements. The words are those of the call that checks it.
pub fn new_store<F: Family, H: Hasher<F>>(
    hasher: &H,
    words: &mut Words,
) -> Result<ProofStore<F, H::Digest>, Refusal> {
    let proof = proof(words);
    let start = Location::new(words.number());
    let found = words.elements();
    let root = digest(words);
    let all = words.slices(&found);
    words.end()?;
    granted(ProofStore::new(hasher, &proof, &all, start, &root))
}
