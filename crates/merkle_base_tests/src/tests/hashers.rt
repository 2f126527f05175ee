//! What hashers answer, by value and behind references.

use super::OF_ABC;
use merkle_base::family::Bagging;
use merkle_base::location::Location;
use merkle_base::position::Position;
use merkle_digest::digest::{Digest, PlainHasher, Xor8, Xor8Digest};
use merkle_fixtures::keyed::Keyed;
use merkle_hasher::hasher::Hasher;
use merkle_leaves::standard::Standard;
use merkle_sha256::sha256::{Sha256Digest, Sha256Plain};
use merkle_topology::mmr::Family;
use std::process::Abort;

fn byte(digest: &Xor8Digest) -> u8 {
    digest.as_bytes()[0]
}

/// The digest of that byte.
fn digest(rt: &impl Abort, byte: u8) -> Xor8Digest {
    Xor8Digest::from_bytes(&[byte]).expect(rt, "any byte is a digest")
}

/// Asserts that the standard hasher over a plain one folds peaks as it was told, as does its clone, and that it gives this
/// digest to `abc`.
fn assert_standard<H: PlainHasher>(rt: &impl Abort, bagging: Bagging, of_abc: Option<H::Digest>) {
    let hasher = Standard::<H>::new(bagging);
    let copy = hasher.clone().ok().expect(rt, "memory");
    let baggings = [hasher.root_bagging(), copy.root_bagging()];
    assert!(rt; baggings == [bagging; 2]);
    assert!(rt; Some(hasher.hash(&[b"a", b"bc"])) == of_abc);
    assert!(rt; Some(hasher.digest(b"abc")) == of_abc);
}

#[test]
fn standard_hashers(rt: HostRuntime) {
    for bagging in [Bagging::ForwardFold, Bagging::BackwardFold] {
        assert_standard::<Sha256Plain>(&rt, bagging, Sha256Digest::from_bytes(&OF_ABC));
        // 61 xor 62 xor 63
        assert_standard::<Xor8>(&rt, bagging, Xor8Digest::from_bytes(&[0x60]));
    }
}

/// Asserts how a hasher folds peaks and each of its digests, `key` being what they have in common.
fn assert_hasher<H: Hasher<Family, Digest = Xor8Digest>>(
    rt: &impl Abort,
    hasher: &H,
    bagging: Bagging,
    key: u8,
) {
    assert!(rt; hasher.root_bagging() == bagging);
    let (one, two) = (digest(rt, 1), digest(rt, 2));
    // its bytes are 01 and 30, after zeros
    let position = Position::new(0x0130);
    let pair = [(position, one, two), (Position::new(4), two, two)];
    let (first, second) = hasher.node_digest_pair(pair);
    let found = [
        byte(&hasher.hash(&[])) ^ key,
        byte(&hasher.hash(&[&[1, 2], &[], &[4]])) ^ key,
        byte(&hasher.digest(&[5, 6])) ^ key,
        byte(&hasher.fold(&one, &two)) ^ key,
        byte(&hasher.leaf_digest(position, &[4, 8])) ^ key,
        byte(&hasher.node_digest(position, &one, &two)) ^ key,
        byte(&first) ^ key,
        byte(&second) ^ key,
    ];
    assert_eq!(rt; found, [0x00, 0x07, 0x03, 0x03, 0x3d, 0x32, 0x32, 0x04]);
}

/// Asserts the same of a hasher behind a reference, and of a clone.
fn assert_hashers<H: Hasher<Family, Digest = Xor8Digest> + Drop>(
    rt: &impl Abort,
    hasher: H,
    bagging: Bagging,
    key: u8,
) {
    assert_hasher(rt, &hasher, bagging, key);
    assert_hasher(rt, &&hasher, bagging, key);
    let copy = hasher.clone().ok().expect(rt, "memory");
    assert_hasher(rt, &copy, bagging, key);
}

#[test]
fn digests(rt: HostRuntime) {
    for bagging in [Bagging::ForwardFold, Bagging::BackwardFold] {
        assert_hashers(&rt, Standard::<Xor8>::new(bagging), bagging, 0);
        assert_hashers(&rt, Keyed::new(0x50, bagging), bagging, 0x50);
    }
}

/// The root of `leaves` leaves over peaks of which some are folded to the first of these, and the others follow.
fn folded_root<H: Hasher<Family, Digest = Xor8Digest>>(
    hasher: &H,
    leaves: u64,
    to_fold: usize,
    committed: usize,
    peaks: &[Xor8Digest],
) -> Option<u8> {
    let leaves = Location::new(leaves);
    match hasher.root_with_folded_peaks(leaves, to_fold, committed, peaks) {
        Some(root) => Some(byte(&root)),
        None => None,
    }
}

/// Such roots over no peaks, and over these two.
fn folded_roots<H: Hasher<Family, Digest = Xor8Digest>>(
    hasher: &H,
    peaks: &[Xor8Digest],
) -> [Option<u8>; 8] {
    [
        folded_root(hasher, 0, 0, 0, &[]),
        folded_root(hasher, 0, 0, 1, &[]),
        folded_root(hasher, 0, 1, 0, &[]),
        folded_root(hasher, 2, 0, 9, peaks),
        folded_root(hasher, 2, 1, 0, peaks),
        folded_root(hasher, 2, 2, 3, peaks),
        folded_root(hasher, 2, 3, 0, peaks),
        folded_root(hasher, 2, 3, 3, peaks),
    ]
}

#[test]
fn roots_with_folded_peaks(rt: HostRuntime) {
    let hasher = Standard::<Xor8>::new(Bagging::BackwardFold);
    let peaks = [digest(&rt, 0x10), digest(&rt, 0x20)];
    let (first, second) = (
        folded_roots(&hasher, &peaks),
        folded_roots(&&hasher, &peaks),
    );
    let roots = [
        Some(0x01),
        None,
        None,
        Some(0x3a),
        Some(0x33),
        Some(0x30),
        None,
        None,
    ];
    assert_eq!(rt; first, roots);
    assert!(rt; second == first);
}
