//! Values, bytes, hexadecimal words, added leaves, audits, counts, checks by digests of leaves, lines, and proofs over what holds nodes, with values that were worked out
//! by hand.
//!
//! A digest of `Xor8` is the exclusive or of the bytes that it hashes.

mod additions;
mod audits;
mod bytes;
mod codec;
mod counts;
mod held;
mod leaf_digests;
mod lines;
mod pending;
mod values;
mod verification;
mod words;

use merkle_core::digest::{Digest, Xor8Digest};
use merkle_core::family::Family;
use merkle_core::hasher::Hasher;
use merkle_core::mem::Mem;
use std::alloc::{AllocError, Global};
use std::fmt::Debug;
use std::process::Abort;

/// The digest of that byte.
fn digest(rt: &impl Abort, byte: u8) -> Xor8Digest {
    Xor8Digest::from_bytes(&[byte]).expect(rt, "any byte is a digest")
}

/// Asserts that what is printed of a value for programmers begins so.
fn assert_prints<T: Debug>(rt: &impl Abort, alloc: Global, value: &T, start: &str) {
    let shown = format!(in alloc; "{value:?}").ok().expect(rt, "memory");
    assert!(rt; shown.as_str().starts_with(start), "{shown}");
}

/// That many times the same element. The digests of its leaves differ, since each has its position.
fn repeated<'a>(alloc: Global, element: &'a [u8], count: u64) -> Result<Vec<&'a [u8]>, AllocError> {
    let mut all = Vec::new(alloc);
    for _ in 0..count {
        all.push(element)?;
    }
    Ok(all)
}

/// A structure of leaves with these elements; `None` where a call is refused.
fn structure_of<F: Family, H: Hasher<F>>(
    alloc: Global,
    hasher: &H,
    elements: &[&[u8]],
) -> Option<Mem<F, H::Digest>> {
    let mut structure = Mem::new(alloc);
    let Ok(batch) = structure.new_batch() else {
        return None;
    };
    let Ok(batch) = batch.add_all(hasher, elements) else {
        return None;
    };
    let Ok(batch) = batch.merkleize(&structure, hasher) else {
        return None;
    };
    let Ok(()) = structure.apply_batch(&batch) else {
        return None;
    };
    Some(structure)
}
