//! Checks of proofs for programs in other languages: a static library with a C interface.
//!
//! The digests are those of SHA-256. Each call answers a number, of which `verifier/merkle_verifier.h` has the names: 0 is accepted,
//! read or hashed, and every other number is not. A call keeps no memory and no state, so that any number of threads may call it. What C gives as a
//! pointer and a length is a slice here. `verifier/calls.c` has the names that programs call, without `proved_`.
#![tactic(auto)]

mod answer;
mod checks;
mod digest_checks;
mod parts;
mod read;

ghost use Rattle.std.specs.Prelude.{◌≡◌, ◌≢◌, Bool};
ghost use Rattle.merkle_base.specs.Scheme.{scheme_of};
ghost use Rattle.merkle_sha256.specs.PlainHashings.{sha256_hashing};
ghost use Rattle.merkle_verifier.specs.Answers.{IsElementAnswer, IsRangeAnswer, IsScatteredAnswer, IsGrowthAnswer};
ghost use Rattle.merkle_verifier.specs.Answers.{IsLeafDigestAnswer, IsRangeDigestsAnswer, IsScatteredDigestsAnswer, IsGrowthDigestsAnswer};
ghost use Rattle.merkle_verifier.specs.Answers.{IsHashAnswer, was_hashed};
ghost use Rattle.merkle_verifier.specs.Schemes.{bagging_of, max_leaves_of, sha256_scheme};
ghost use Rattle.merkle_verifier.specs.Unread.{IsReadAnswer, was_read};

use crate::answer::{HASHED, NO_LOCATION, READ};
use crate::checks::{Elements, OldRoot, check_element, check_growth, check_range, check_scattered};
use crate::digest_checks::{
    check_growth_digests, check_leaf_digest, check_range_digests, check_scattered_digests,
};
use crate::read::read_proof;
use merkle_base::family::{Bagging, Family};
use merkle_base::location::Location;
use merkle_digest::digest::Digest;
use merkle_hasher::hasher::Hasher;
use merkle_leaves::standard::Standard;
use merkle_sha256::sha256::Sha256Plain;
use merkle_topology::{mmb, mmr};
use std::alloc::Global;

// The hasher with the bagging that a flag names.
fn hasher_of(is_backward: bool) -> Standard<Sha256Plain>
    ensures { result ≡ bagging_of is_backward }
{
    Standard::new(if is_backward {
        Bagging::BackwardFold
    } else {
        Bagging::ForwardFold
    })
}

/// Answers whether `element` is the leaf at `location` of the list behind `root`.
#[unsafe(no_mangle)]
pub extern "C" fn merkle_proved_verify_element(
    alloc: Global,
    is_belt: bool,
    is_backward: bool,
    root: &[u8],
    proof: &[u8],
    location: u64,
    element: &[u8],
) -> u32
    ensures { IsElementAnswer (sha256_scheme is_belt is_backward) root.now proof.now location element.now result }
{
    let hasher = hasher_of(is_backward);
    if is_belt {
        check_element::<mmb::Family>(alloc, &hasher, root, proof, location, element)
    } else {
        check_element::<mmr::Family>(alloc, &hasher, root, proof, location, element)
    }
}

/// Answers whether the elements are the leaves from `start` on of the list behind `root`.
///
/// `elements` has their bytes, one after another, and `lengths` the length of each.
#[unsafe(no_mangle)]
pub extern "C" fn merkle_proved_verify_range(
    alloc: Global,
    is_belt: bool,
    is_backward: bool,
    root: &[u8],
    proof: &[u8],
    start: u64,
    elements: &[u8],
    lengths: &[usize],
) -> u32
    ensures { IsRangeAnswer (sha256_scheme is_belt is_backward) root.now proof.now start elements.now lengths.now result }
{
    let hasher = hasher_of(is_backward);
    let elements = Elements {
        bytes: elements,
        lengths,
    };
    if is_belt {
        check_range::<mmb::Family>(alloc, &hasher, root, proof, start, &elements)
    } else {
        check_range::<mmr::Family>(alloc, &hasher, root, proof, start, &elements)
    }
}

/// Answers whether the elements, each at its location, are leaves of the list behind `root`.
///
/// `elements` has their bytes, one after another, and `lengths` the length of each.
#[unsafe(no_mangle)]
pub extern "C" fn merkle_proved_verify_scattered(
    alloc: Global,
    is_belt: bool,
    is_backward: bool,
    root: &[u8],
    proof: &[u8],
    locations: &[u64],
    elements: &[u8],
    lengths: &[usize],
) -> u32
    ensures { IsScatteredAnswer (sha256_scheme is_belt is_backward) root.now proof.now locations.now elements.now lengths.now result }
{
    let hasher = hasher_of(is_backward);
    let elements = Elements {
        bytes: elements,
        lengths,
    };
    if is_belt {
        check_scattered::<mmb::Family>(alloc, &hasher, root, proof, locations, &elements)
    } else {
        check_scattered::<mmr::Family>(alloc, &hasher, root, proof, locations, &elements)
    }
}

/// Answers whether the list behind `root` begins with the `old_leaves` leaves behind `old_root`, followed by the elements.
///
/// `old_root` was made for `old_inactive_peaks` inactive peaks. `pins` has the bytes of the digests of the peaks over the old
/// leaves, the oldest first. `elements` has the bytes of the elements, one after another, and `lengths` the length of each.
#[unsafe(no_mangle)]
pub extern "C" fn merkle_proved_verify_growth(
    alloc: Global,
    is_belt: bool,
    is_backward: bool,
    old_leaves: u64,
    old_inactive_peaks: u64,
    old_root: &[u8],
    pins: &[u8],
    root: &[u8],
    proof: &[u8],
    elements: &[u8],
    lengths: &[usize],
) -> u32
    ensures { let s = sha256_scheme is_belt is_backward in
        IsGrowthAnswer s old_leaves old_inactive_peaks old_root.now pins.now root.now proof.now elements.now lengths.now result }
{
    let hasher = hasher_of(is_backward);
    let old = OldRoot {
        leaves: old_leaves,
        inactive_peaks: old_inactive_peaks as usize,
        root: old_root,
        pins,
    };
    let elements = Elements {
        bytes: elements,
        lengths,
    };
    if is_belt {
        check_growth::<mmb::Family>(alloc, &hasher, &old, root, proof, &elements)
    } else {
        check_growth::<mmr::Family>(alloc, &hasher, &old, root, proof, &elements)
    }
}

/// Answers whether `digest` is that of the leaf at `location` of the list behind `root`.
#[unsafe(no_mangle)]
pub extern "C" fn merkle_proved_verify_leaf_digest(
    alloc: Global,
    is_belt: bool,
    is_backward: bool,
    root: &[u8],
    proof: &[u8],
    location: u64,
    digest: &[u8],
) -> u32
    ensures { IsLeafDigestAnswer (sha256_scheme is_belt is_backward) root.now proof.now location digest.now result }
{
    let hasher = hasher_of(is_backward);
    if is_belt {
        check_leaf_digest::<mmb::Family>(alloc, &hasher, root, proof, location, digest)
    } else {
        check_leaf_digest::<mmr::Family>(alloc, &hasher, root, proof, location, digest)
    }
}

/// Answers whether the digests are those of the leaves from `start` on of the list behind `root`.
///
/// `digests` has their bytes, one after another.
#[unsafe(no_mangle)]
pub extern "C" fn merkle_proved_verify_range_digests(
    alloc: Global,
    is_belt: bool,
    is_backward: bool,
    root: &[u8],
    proof: &[u8],
    start: u64,
    digests: &[u8],
) -> u32
    ensures { IsRangeDigestsAnswer (sha256_scheme is_belt is_backward) root.now proof.now start digests.now result }
{
    let hasher = hasher_of(is_backward);
    if is_belt {
        check_range_digests::<mmb::Family>(alloc, &hasher, root, proof, start, digests)
    } else {
        check_range_digests::<mmr::Family>(alloc, &hasher, root, proof, start, digests)
    }
}

/// Answers whether the digests are those of leaves, each at its location, of the list behind `root`.
///
/// `digests` has their bytes, one after another.
#[unsafe(no_mangle)]
pub extern "C" fn merkle_proved_verify_scattered_digests(
    alloc: Global,
    is_belt: bool,
    is_backward: bool,
    root: &[u8],
    proof: &[u8],
    locations: &[u64],
    digests: &[u8],
) -> u32
    ensures { IsScatteredDigestsAnswer (sha256_scheme is_belt is_backward) root.now proof.now locations.now digests.now result }
{
    let hasher = hasher_of(is_backward);
    if is_belt {
        check_scattered_digests::<mmb::Family>(alloc, &hasher, root, proof, locations, digests)
    } else {
        check_scattered_digests::<mmr::Family>(alloc, &hasher, root, proof, locations, digests)
    }
}

/// Answers whether the list behind `root` begins with the `old_leaves` leaves behind `old_root`, followed by leaves with these
/// digests.
///
/// `old_root` was made for `old_inactive_peaks` inactive peaks. `pins` has the bytes of the digests of the peaks over the old
/// leaves, the oldest first. `digests` has the bytes of the digests of the leaves that follow, one after another.
#[unsafe(no_mangle)]
pub extern "C" fn merkle_proved_verify_growth_digests(
    alloc: Global,
    is_belt: bool,
    is_backward: bool,
    old_leaves: u64,
    old_inactive_peaks: u64,
    old_root: &[u8],
    pins: &[u8],
    root: &[u8],
    proof: &[u8],
    digests: &[u8],
) -> u32
    ensures { let s = sha256_scheme is_belt is_backward in
        IsGrowthDigestsAnswer s old_leaves old_inactive_peaks old_root.now pins.now root.now proof.now digests.now result }
{
    let hasher = hasher_of(is_backward);
    let old = OldRoot {
        leaves: old_leaves,
        inactive_peaks: old_inactive_peaks as usize,
        root: old_root,
        pins,
    };
    if is_belt {
        check_growth_digests::<mmb::Family>(alloc, &hasher, &old, root, proof, digests)
    } else {
        check_growth_digests::<mmr::Family>(alloc, &hasher, &old, root, proof, digests)
    }
}

// Writes the leaf count and the number of inactive peaks of the proof that the bytes encode.
fn read_counts<F: Family>(
    alloc: Global,
    proof: &[u8],
    leaves: &mut u64,
    inactive_peaks: &mut u64,
) -> u32
    ensures answer { IsReadAnswer F.MAX_LEAVES proof.now leaves.new inactive_peaks.new result }
    ensures unread { result ≢ was_read → (leaves.new ≡ leaves.old) × (inactive_peaks.new ≡ inactive_peaks.old) }
{
    match read_proof::<F>(alloc, proof) {
        Ok(proof) => {
            *leaves = proof.leaves.as_u64();
            *inactive_peaks = proof.inactive_peaks as u64;
            READ
        }
        Err(error) => error.reason(),
    }
}

/// Writes the leaf count and the number of inactive peaks of the proof that the bytes encode, and answers 0; or answers the
/// number of the reason why they encode none, and writes nothing.
#[unsafe(no_mangle)]
pub extern "C" fn merkle_proved_read_proof(
    alloc: Global,
    is_belt: bool,
    proof: &[u8],
    leaves: &mut u64,
    inactive_peaks: &mut u64,
) -> u32
    ensures answer { IsReadAnswer (max_leaves_of is_belt) proof.now leaves.new inactive_peaks.new result }
    ensures unread { result ≢ was_read → (leaves.new ≡ leaves.old) × (inactive_peaks.new ≡ inactive_peaks.old) }
{
    if is_belt {
        read_counts::<mmb::Family>(alloc, proof, leaves, inactive_peaks)
    } else {
        read_counts::<mmr::Family>(alloc, proof, leaves, inactive_peaks)
    }
}

// Writes the digest of the leaf at a location with this element. The bagging has no part in it.
fn write_leaf_digest<F: Family>(
    hasher: &Standard<Sha256Plain>,
    location: u64,
    element: &[u8],
    digest: &mut [u8; 32],
) -> u32
    ensures answer { let s = scheme_of sha256_hashing hasher.now F.rule F.MAX_LEAVES F.DOMAIN in
        IsHashAnswer s location element.now digest.new result }
    ensures unwritten { result ≢ was_hashed → digest.new ≡ digest.old }
{
    let location: Location<F> = Location::new(location);
    if !location.is_valid_index() {
        return NO_LOCATION;
    }
    let leaf = hasher.leaf_digest(F::location_to_position(location), element);
    digest.copy_from_slice(leaf.as_bytes());
    HASHED
}

/// Writes the digest of the leaf at `location` with this element, and answers 0; or answers the number that says that no leaf of
/// the family has that location, and writes nothing.
#[unsafe(no_mangle)]
pub extern "C" fn merkle_proved_leaf_digest(
    is_belt: bool,
    location: u64,
    element: &[u8],
    digest: &mut [u8; 32],
) -> u32
    ensures answer { (is_backward : Bool) → IsHashAnswer (sha256_scheme is_belt is_backward) location element.now digest.new result }
    ensures unwritten { result ≢ was_hashed → digest.new ≡ digest.old }
{
    let hasher = hasher_of(false);
    if is_belt {
        write_leaf_digest::<mmb::Family>(&hasher, location, element, digest)
    } else {
        write_leaf_digest::<mmr::Family>(&hasher, location, element, digest)
    }
}
