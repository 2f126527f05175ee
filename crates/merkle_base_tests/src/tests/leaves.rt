use merkle_base::family::Bagging;
use merkle_digest::digest::Xor8;
use merkle_fixtures::flat::{Family, Position};
use merkle_fixtures::keyed::Keyed;
use merkle_hasher::hasher::Hasher;
use merkle_leaves::leaves::leaf_digests;
use merkle_leaves::standard::Standard;
use merkle_sha256::sha256::Sha256Plain;
use std::process::Abort;

/// The lengths of the elements, in turn: alike for some, far apart for others, at the borders of the blocks.
const LENGTHS: [usize; 13] = [32, 47, 48, 0, 111, 112, 250, 303, 304, 1007, 1, 1008, 176];

/// As many leaves, whose elements are the first bytes of `bytes`, with one of the lengths in turn.
pub fn leaves_of_lengths<'a>(
    rt: &(impl Abort + AllocGlobal),
    bytes: &'a [u8],
    lengths: &[usize],
    count: usize,
) -> Vec<(Position, &'a [u8])> {
    let mut leaves = Vec::new(rt.alloc());
    for (position, length) in (0u64..).zip(lengths.iter().cycle()).take(count) {
        let element = bytes.get(..*length).expect(rt, "bytes of each length");
        assert!(rt; leaves.push((Position::new(position), element)).is_ok());
    }
    leaves
}

/// Asserts that the digests of leaves, each of whose elements has one of some lengths in turn, are those of the leaves
/// one by one, after what was there.
fn assert_digests<H: Hasher<Family>>(
    rt: &(impl Abort + AllocGlobal),
    hasher: &H,
    lengths: &[usize],
) {
    let bytes = [7u8; 1008];
    for count in [0, 1, 3, 4, 5, 9, 63, 64, 65, 67, 68, 130] {
        let leaves = leaves_of_lengths(rt, &bytes, lengths, count);
        let first = hasher.digest(&[]);
        let (mut wanted, mut digests) = (Vec::new(rt.alloc()), Vec::new(rt.alloc()));
        assert!(rt; wanted.push(first).is_ok() && digests.push(first).is_ok());
        for leaf in &leaves {
            assert!(rt; wanted.push(hasher.leaf_digest(leaf.0, leaf.1)).is_ok());
        }
        assert!(rt; leaf_digests(hasher, &leaves, &mut digests).is_ok());
        assert!(rt; digests == wanted, "{count} leaves");
    }
}

#[test]
fn leaves_as_one_by_one(rt: HostRuntime) {
    let sha256 = Standard::<Sha256Plain>::new(Bagging::ForwardFold);
    for last in 1..14 {
        assert_digests(&rt, &sha256, &LENGTHS[..last]);
        assert_digests(&rt, &sha256, &LENGTHS[last - 1..]);
    }
    assert_digests(&rt, &Standard::<Xor8>::new(Bagging::ForwardFold), &LENGTHS);
    assert_digests(&rt, &Keyed::new(0x50, Bagging::ForwardFold), &LENGTHS);
}
