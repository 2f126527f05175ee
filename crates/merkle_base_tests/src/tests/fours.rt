use super::leaves::leaves_of_lengths;
use merkle_base::family::Bagging;
use merkle_digest::digest::{PlainHasher, Xor8};
use merkle_fixtures::counting::Counting;
use merkle_fixtures::flat::Family;
use merkle_fixtures::fours::Fours;
use merkle_fixtures::keyed::Keyed;
use merkle_hasher::hasher::Hasher;
use merkle_leaves::leaves::leaf_digests;
use merkle_leaves::standard::Standard;
use merkle_sha256::sha256::Sha256Plain;
use std::cell::Cell;
use std::process::Abort;

/// Asserts how many groups of four leaves have elements of equal length, how many have not, and how many leaves are
/// computed one by one, for `count` leaves, whose elements have one of some lengths in turn; and that the digests, and
/// their capacity, are those of leaves one by one.
fn assert_groups(
    rt: &(impl Abort + AllocGlobal),
    together: bool,
    lengths: &[usize],
    count: usize,
    expected: (u64, u64, u64),
) {
    let (equal, unequal) = (Cell::new(0), Cell::new(0));
    let (single, pairs, nodes) = (Cell::new(0), Cell::new(0), Cell::new(0));
    let hasher = Fours {
        together,
        equal: &equal,
        unequal: &unequal,
        leaves: &single,
        pairs: &pairs,
        nodes: &nodes,
    };
    let bytes = [7u8; 1100];
    let leaves = leaves_of_lengths(rt, &bytes, lengths, count);
    let mut digests = Vec::new(rt.alloc());
    assert!(rt; leaf_digests::<Family, _>(&hasher, &leaves, &mut digests).is_ok());
    assert_eq!(rt;
        (equal.get(), unequal.get(), single.get()),
        expected,
        "{count} leaves"
    );
    let mut wanted = Vec::new(rt.alloc());
    for leaf in &leaves {
        assert!(rt; wanted.push(hasher.leaf_digest(leaf.0, leaf.1)).is_ok());
    }
    assert!(rt; digests == wanted, "{count} leaves");
    assert_eq!(rt; digests.capacity(), wanted.capacity(), "{count} leaves");
}

// Every second element is longer. In the order of the lengths all groups of four but at most one have equal ones.
#[test]
fn leaves_of_equal_lengths_together(rt: HostRuntime) {
    assert_groups(&rt, true, &[32, 100], 64, (16, 0, 0));
    assert_groups(&rt, true, &[32, 100], 130, (32, 0, 2));
    assert_groups(&rt, true, &[32, 100], 62, (14, 1, 2));
    assert_groups(&rt, true, &[1100, 32], 64, (16, 0, 0));
}

// In the order of the lengths each of these would have at least one group more with elements of equal length. That is
// estimated to save no more time than sorting is estimated to take: leaves with 1,100 bytes have too many blocks to be hashed
// together.
#[test]
fn leaves_in_their_own_order(rt: HostRuntime) {
    assert_groups(&rt, true, &[100, 32, 32, 32], 8, (0, 2, 0));
    assert_groups(&rt, true, &[32, 32, 32, 500], 8, (0, 2, 0));
    assert_groups(&rt, true, &[1100, 32], 8, (0, 2, 0));
}

// A hasher that computes digests one by one is given the leaves in their own order.
#[test]
fn leaves_one_by_one_in_their_own_order(rt: HostRuntime) {
    assert_groups(&rt, false, &[32, 100], 64, (0, 16, 0));
}

/// Asserts that a hasher with the default body of `hashes_together` is called with `count` leaves in their own order, each
/// of them once; their elements have one of some lengths in turn.
fn assert_own_order(rt: &(impl Abort + AllocGlobal), lengths: &[usize], count: usize) {
    let mut positions = Vec::new(rt.alloc());
    for _ in 0..count {
        assert!(rt; positions.push(Cell::new(u64::MAX)).is_ok());
    }
    let (pairs, singles, noted) = (Cell::new(0), Cell::new(0), Cell::new(0));
    let hasher = Counting {
        bagging: Bagging::ForwardFold,
        pairs: &pairs,
        singles: &singles,
        leaves: &noted,
        positions: &positions,
    };
    let bytes = [7u8; 1100];
    let leaves = leaves_of_lengths(rt, &bytes, lengths, count);
    let mut digests = Vec::new(rt.alloc());
    assert!(rt; leaf_digests::<Family, _>(&hasher, &leaves, &mut digests).is_ok());
    assert_eq!(rt; noted.get(), count as u64);
    for (leaf, position) in leaves.iter().zip(positions.iter()) {
        assert_eq!(rt; position.get(), leaf.0.as_u64(), "{count} leaves");
    }
}

// If the default were true, it would be called with the shorter leaves of each 64 first: 0, 2, 4 and so on.
#[test]
fn leaves_in_their_own_order_by_default(rt: HostRuntime) {
    assert_own_order(&rt, &[32, 100], 64);
    assert_own_order(&rt, &[32, 100], 130);
    assert_own_order(&rt, &[32, 100], 7);
}

#[test]
fn hashers_that_hash_together(rt: HostRuntime) {
    let sha256 = Standard::<Sha256Plain>::new(Bagging::ForwardFold);
    assert!(rt; Sha256Plain::hashes_together());
    assert!(rt; Hasher::<Family>::hashes_together(&sha256));
    assert!(rt; Hasher::<Family>::hashes_together(&&sha256));
    let xor = Standard::<Xor8>::new(Bagging::ForwardFold);
    assert!(rt; !Xor8::hashes_together());
    assert!(rt; !Hasher::<Family>::hashes_together(&xor));
    assert!(rt; !Hasher::<Family>::hashes_together(&&xor));
    // A hasher without a body of its own for it.
    let keyed = Keyed::new(0x50, Bagging::ForwardFold);
    assert!(rt; !Hasher::<Family>::hashes_together(&keyed));
    assert!(rt; !Hasher::<Family>::hashes_together(&&keyed));
}

/// Asserts in how many blocks leaves with elements of some lengths are hashed.
fn assert_leaf_blocks<H: Hasher<Family>>(rt: &impl Abort, hasher: &H, counts: &[(usize, usize)]) {
    for (length, count) in counts {
        let found = hasher.leaf_block_count(*length);
        assert_eq!(rt; found, *count, "an element of {length} bytes");
    }
}

// A leaf is hashed after its position of 8 bytes, and at least 9 bytes of padding follow. All that are too long to be hashed
// together have the same number.
#[test]
fn numbers_of_blocks(rt: HostRuntime) {
    let counts = [
        (0, 1),
        (55, 1),
        (56, 2),
        (119, 2),
        (120, 3),
        (1015, 16),
        (1016, 17),
        (1100, 17),
        (1_000_000, 17),
        (usize::MAX, 17),
    ];
    for (length, count) in &counts {
        assert_eq!(rt; Sha256Plain::block_count(*length), *count, "{length} bytes");
    }
    assert!(rt; Xor8::block_count(72) == 0);
}

#[test]
fn numbers_of_blocks_of_leaves(rt: HostRuntime) {
    let counts = [
        (0, 1),
        (47, 1),
        (48, 2),
        (111, 2),
        (112, 3),
        (1007, 16),
        (1016, 17),
        (1100, 17),
        (1_000_000, 17),
        (usize::MAX, 17),
    ];
    let sha256 = Standard::<Sha256Plain>::new(Bagging::ForwardFold);
    assert_leaf_blocks(&rt, &sha256, &counts);
    assert_leaf_blocks(&rt, &&sha256, &counts);
    let none = [(72, 0)];
    assert_leaf_blocks(&rt, &Standard::<Xor8>::new(Bagging::ForwardFold), &none);
    assert_leaf_blocks(&rt, &Keyed::new(0x50, Bagging::ForwardFold), &none);
}

#[test]
fn leaves_that_are_hashed_together(rt: HostRuntime) {
    let sha256 = Standard::<Sha256Plain>::new(Bagging::ForwardFold);
    assert!(rt; Sha256Plain::pays_together(1, 1, 1, 1));
    assert!(rt; Sha256Plain::pays_together(1, 1, 1, 3));
    assert!(rt; !Sha256Plain::pays_together(1, 1, 1, 4));
    assert!(rt; Hasher::<Family>::pays_together(&sha256, 4, 2, 1, 1));
    assert!(rt; !Hasher::<Family>::pays_together(&&sha256, 5, 2, 1, 1));
    assert!(rt; Hasher::<Family>::pays_together(&&sha256, 16, 16, 16, 16));
    assert!(rt; !Hasher::<Family>::pays_together(&sha256, 16, 16, 17, 16));
    assert!(rt; !Xor8::pays_together(1, 1, 1, 1));
    let xor = Standard::<Xor8>::new(Bagging::ForwardFold);
    assert!(rt; !Hasher::<Family>::pays_together(&xor, 1, 1, 1, 1));
    let keyed = Keyed::new(0x50, Bagging::ForwardFold);
    assert!(rt; !Hasher::<Family>::pays_together(&keyed, 1, 1, 1, 1));
}
