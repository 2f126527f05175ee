//! The Mountain Range.

use super::{assert_sums, has_chunk, root_of};
use merkle_base::family::Family;
use merkle_topology::mmr;
use merkle_topology::mmr::PeakIterator;

const MAX_NODES: u64 = 9223372036854775807;

const MAX_LEAVES: u64 = 4611686018427387904;

#[test]
fn limits(rt: HostRuntime) {
    let found = [mmr::Family::MAX_NODES, mmr::Family::MAX_LEAVES];
    assert!(rt; found == [MAX_NODES, MAX_LEAVES]);
    assert!(rt; mmr::Family::DOMAIN == 0);
    let family = mmr::Family::default();
    let copy = family;
    assert!(rt; copy == family);
}

#[test]
fn sums(rt: HostRuntime) {
    assert_sums::<mmr::Family>(&rt, MAX_NODES);
}

#[test]
fn peaks(rt: HostRuntime) {
    assert!(rt; PeakIterator::to_nearest_size(mmr::Position::new(6)).as_u64() == 4);
    assert!(rt; PeakIterator::default().next().is_none());
}

#[test]
fn children(rt: HostRuntime) {
    let (left, right) = mmr::Family::children(mmr::Position::new(6), 2);
    assert!(rt; [left.as_u64(), right.as_u64()] == [2, 5]);
}

#[test]
fn chunk_peaks(rt: HostRuntime) {
    let found = [
        has_chunk::<mmr::Family>(8, 0, 2, &[(6, 2)]),
        has_chunk::<mmr::Family>(8, 1, 2, &[(13, 2)]),
        has_chunk::<mmr::Family>(11, 1, 2, &[(13, 2)]),
        has_chunk::<mmr::Family>(11, 10, 0, &[(18, 0)]),
        has_chunk::<mmr::Family>(MAX_LEAVES, 0, 62, &[(MAX_NODES - 1, 62)]),
    ];
    assert!(rt; found == [true; 5]);
}

#[test]
fn roots(rt: HostRuntime) {
    let found = [
        root_of::<mmr::Family>(0, 0),
        root_of::<mmr::Family>(4, 2),
        // no node is over leaves 1 and 2
        root_of::<mmr::Family>(1, 1),
        // on the way to these no sum passes 64 bits
        root_of::<mmr::Family>(0, 62),
        root_of::<mmr::Family>(MAX_LEAVES, 0),
    ];
    let wanted = [
        [0, 0, 1],
        [13, 4, 8],
        [3, 1, 3],
        [MAX_NODES - 1, 0, MAX_LEAVES],
        [MAX_NODES, MAX_LEAVES, MAX_LEAVES + 1],
    ];
    assert!(rt; found == wanted);
}
