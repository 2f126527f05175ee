//! Digests that are extracted from proofs of ranges, against the nodes of the structure.

use crate::tests::{repeated, structure_of};
use merkle_core::digest::{Digest, Sha256Plain, Xor8, Xor8Digest};
use merkle_core::family::{Bagging, Family};
use merkle_core::hasher::{Hasher, Standard};
use merkle_core::location::Location;
use merkle_core::mem::Mem;
use merkle_core::position::Position;
use merkle_core::{mmb, mmr};
use merkle_fixtures::counting::Counting;
use merkle_fixtures::fours::Fours;
use std::alloc::Global;
use std::cell::Cell;
use std::process::Abort;

/// How many leaves the structures have.
const LEAVES: u64 = 1100;

/// The number of pairs of a peak of that height over leaves from `first` on, the range being from
/// `start` up to `end`: the peak, and the two children of each node below it that is over a leaf of
/// the range.
fn count_of_peak(height: u32, first: u64, start: u64, end: u64) -> u64 {
    let width = 1u64.checked_shl(height).unwrap_or(0);
    let mut low = start.saturating_sub(first);
    let mut last = end.saturating_sub(first).min(width).saturating_sub(1);
    let mut count = 1u64;
    for _ in 0..height {
        low /= 2;
        last /= 2;
        let over = last.saturating_sub(low).saturating_add(1);
        count = count.saturating_add(over.saturating_mul(2));
    }
    count
}

/// The number of pairs of a range, where the peaks before it are folded.
fn count_of_range<F: Family, D: Digest>(structure: &Mem<F, D>, start: u64, end: u64) -> u64 {
    let mut count = 0u64;
    let mut first = 0u64;
    for (_, height) in structure.peak_iterator() {
        let next = first.saturating_add(1u64.checked_shl(height).unwrap_or(0));
        if end <= first {
            count = count.saturating_add(1);
        } else if start < next {
            count = count.saturating_add(count_of_peak(height, first, start, end));
        }
        first = next;
    }
    count
}

/// The structure of all leaves; `None` where a call is refused.
fn structure_of_all<F: Family, H: Hasher<F>>(
    alloc: Global,
    hasher: &H,
) -> Option<Mem<F, H::Digest>> {
    let element = [7u8];
    match repeated(alloc, &element, LEAVES) {
        Ok(all) => structure_of(alloc, hasher, &all),
        Err(_) => None,
    }
}

/// The pairs that are extracted from the proof of a range; `None` where a call is refused.
fn extracted<F: Family, H: Hasher<F>>(
    alloc: Global,
    structure: &Mem<F, H::Digest>,
    hasher: &H,
    start: u64,
    end: u64,
) -> Option<Vec<(Position<F>, H::Digest)>> {
    let range = Location::new(start)..Location::new(end);
    let Ok(proof) = structure.range_proof(hasher, range, 0) else {
        return None;
    };
    let Ok(root) = structure.root(hasher, 0) else {
        return None;
    };
    let element = [7u8];
    let Ok(given) = repeated(alloc, &element, end.saturating_sub(start)) else {
        return None;
    };
    let first = Location::new(start);
    proof
        .verify_range_inclusion_and_extract_digests(hasher, &given, first, &root)
        .ok()
}

/// Asserts that the pairs of a range are as many as there are, each a node of the structure.
fn assert_extracted<F: Family, H: Hasher<F>>(
    rt: &(impl Abort + AllocGlobal),
    structure: &Mem<F, H::Digest>,
    hasher: &H,
    start: u64,
    count: u64,
) {
    let end = start.saturating_add(count);
    let pairs = extracted(rt.alloc(), structure, hasher, start, end);
    let pairs = pairs.expect(rt, "no refusal");
    let expected = count_of_range(structure, start, end);
    assert!(rt;
        pairs.len() as u64 == expected,
        "{count} leaves from {start} on"
    );
    for (position, digest) in &pairs {
        assert!(rt; structure.get_node(*position) == Some(*digest));
    }
}

/// Asserts that of ranges from an even and from an odd leaf on, with lengths next to those from which
/// on, and up to which, the nodes below a node are computed together.
fn assert_ranges<F: Family, H: Hasher<F>>(rt: &(impl Abort + AllocGlobal), hasher: &H) {
    let structure = structure_of_all(rt.alloc(), hasher).expect(rt, "no refusal");
    for start in [256, 301] {
        for count in &[1, 2, 7, 8, 9, 255, 256, 257, 600] {
            assert_extracted(rt, &structure, hasher, start, *count);
        }
    }
}

#[test]
fn extracted_from_a_mountain_range(rt: HostRuntime) {
    let sha256 = Standard::<Sha256Plain>::new(Bagging::ForwardFold);
    assert_ranges::<mmr::Family, _>(&rt, &sha256);
}

#[test]
fn extracted_from_a_mountain_belt(rt: HostRuntime) {
    let sha256 = Standard::<Sha256Plain>::new(Bagging::ForwardFold);
    assert_ranges::<mmb::Family, _>(&rt, &sha256);
}

/// Extracts the leaves from `start` up to `end` of 1,100 by a hasher, and asserts how many pairs they are.
fn assert_found<F: Family, H: Hasher<F, Digest = Xor8Digest>>(
    rt: &(impl Abort + AllocGlobal),
    hasher: &H,
    start: u64,
    end: u64,
) {
    let plain = Standard::<Xor8>::new(Bagging::ForwardFold);
    let structure = structure_of_all(rt.alloc(), &plain).expect(rt, "no refusal");
    let found = extracted(rt.alloc(), &structure, hasher, start, end).expect(rt, "no refusal");
    assert_eq!(rt; found.len() as u64, count_of_range(&structure, start, end));
}

/// Asserts how many pairs of nodes are computed, and how many nodes by themselves, where the leaves from `start` up to `end`
/// of 1,100 are extracted by a hasher that says whether it computes four digests together.
fn assert_nodes<F: Family>(
    rt: &(impl Abort + AllocGlobal),
    together: bool,
    start: u64,
    end: u64,
    expected: (u64, u64),
) {
    let (equal, unequal, leaves) = (Cell::new(0), Cell::new(0), Cell::new(0));
    let (pairs, nodes) = (Cell::new(0), Cell::new(0));
    let hasher = Fours {
        together,
        equal: &equal,
        unequal: &unequal,
        leaves: &leaves,
        pairs: &pairs,
        nodes: &nodes,
    };
    assert_found::<F, _>(rt, &hasher, start, end);
    assert_eq!(rt; (pairs.get(), nodes.get()), expected, "{start} up to {end}");
}

// Of the nodes below the peak of 1024 leaves 255 are over the first 256 leaves. They are computed in
// pairs but for the highest one, which is computed by itself, as the two nodes over it.
#[test]
fn nodes_in_pairs(rt: HostRuntime) {
    assert_nodes::<mmr::Family>(&rt, true, 0, 256, (127, 3));
}

// The Mountain Belt of 1,100 leaves has peaks of 512, 256, 128, 128, 32, 16, 16, 8, 2 and 2 leaves. Over the node of the first 256
// leaves is one more, the peak. A node over 8 to 256 leaves, n, is computed with those below it: all of the n - 1 are in
// n / 2 - 1 pairs but the highest one. So all leaves have 127 pairs below the first peak twice, 127 at the second one, then
// 63, 63, 15, 7, 7 and 3. The highest nodes of these nine are computed by themselves, and the peaks of 512, 2 and 2 leaves.
#[test]
fn nodes_of_a_mountain_belt_in_pairs(rt: HostRuntime) {
    assert_nodes::<mmb::Family>(&rt, true, 0, 256, (127, 2));
    assert_nodes::<mmb::Family>(&rt, true, 0, LEAVES, (539, 12));
}

// The leaves from 301 up to 901 are the leaf 301, the 2 leaves of a node from 302 on, 16 from 304, 64 from 320, 128 from 384,
// 256 from 512, 128 from 768, 4 from 896, and the leaf 900. The nodes over 16 and more leaves are computed with those below
// them, in 7, 31, 63, 127 and 63 pairs and the 5 highest ones by themselves, as the node over 2 leaves and the 3 over 4.
// So are the nodes that have leaves inside and outside. In the Mountain Range of 1,100 leaves, whose first peak has 1,024,
// one of each height from 1 to 10 has the leaves 300 and 301, and one the leaves 900 and 901: 19, since both have the peak.
// In the Mountain Belt the first peak has 512 leaves, and that from 896 on has 128: 9 nodes have the leaves 300 and 301, and
// 7 the leaves 900 and 901. If a node were not found among the computed ones, it would be computed again, by itself.
#[test]
fn nodes_from_an_odd_leaf_in_pairs(rt: HostRuntime) {
    assert_nodes::<mmr::Family>(&rt, true, 301, 901, (291, 28));
    assert_nodes::<mmb::Family>(&rt, true, 301, 901, (291, 25));
}

// The same nodes by a hasher that computes digests one by one: each of them is computed by itself.
#[test]
fn nodes_one_by_one(rt: HostRuntime) {
    assert_nodes::<mmr::Family>(&rt, false, 0, 256, (0, 257));
    assert_nodes::<mmb::Family>(&rt, false, 0, 256, (0, 256));
    assert_nodes::<mmb::Family>(&rt, false, 0, LEAVES, (0, 1090));
    assert_nodes::<mmr::Family>(&rt, false, 301, 901, (0, 610));
    assert_nodes::<mmb::Family>(&rt, false, 301, 901, (0, 607));
}

// The first of these by a hasher with the default body of `hashes_together`.
#[test]
fn nodes_one_by_one_by_default(rt: HostRuntime) {
    let (pairs, singles, leaves) = (Cell::new(0), Cell::new(0), Cell::new(0));
    let hasher = Counting {
        bagging: Bagging::ForwardFold,
        pairs: &pairs,
        singles: &singles,
        leaves: &leaves,
        positions: &[],
    };
    assert_found::<mmr::Family, _>(&rt, &hasher, 0, 256);
    assert_eq!(rt; (pairs.get(), singles.get()), (0, 257));
}

// Eight leaves of the Mountain Range have the peak 14, over 13 and 6, 6 over 5 and 2, and so on.
#[test]
fn counts_of_pairs(rt: HostRuntime) {
    assert_eq!(rt; count_of_peak(3, 0, 0, 8), 15);
    // the nodes 14, 13, 6, 5, 2, 1 and 0
    assert_eq!(rt; count_of_peak(3, 0, 1, 2), 7);
    // the nodes 14, 13, 6, 12, 9, 5, 2, 8, 7, 4 and 3
    assert_eq!(rt; count_of_peak(3, 0, 3, 5), 11);
    assert_eq!(rt; count_of_peak(0, 8, 8, 9), 1);
}
