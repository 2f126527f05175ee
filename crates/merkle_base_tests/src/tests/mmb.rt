//! The Mountain Belt.

use super::{assert_sums, has_chunk, root_of};
use merkle_base::family::{Family, Graftable};
use merkle_topology::mmb;
use merkle_topology::mmb::PeakIterator;

const MAX_NODES: u64 = 9223372036854775806;

const MAX_LEAVES: u64 = 4611686018427387934;

/// The position and height of the oldest peak of the greatest leaf count: it comes with leaf 3 * 2^60 - 2.
const OLDEST: (u64, u32) = (6917529027641081792, 61);

#[test]
fn limits(rt: HostRuntime) {
    let found = [mmb::Family::MAX_NODES, mmb::Family::MAX_LEAVES];
    assert!(rt; found == [MAX_NODES, MAX_LEAVES]);
    assert!(rt; mmb::Family::DOMAIN == 1);
    let family = mmb::Family::default();
    let copy = family;
    assert!(rt; copy == family);
}

#[test]
fn sums(rt: HostRuntime) {
    assert_sums::<mmb::Family>(&rt, MAX_NODES);
}

/// What a peak iterator tells of its rest: the number of peaks, the same as bounds, and the leaf count of all.
fn told(peaks: &PeakIterator) -> (usize, (usize, Option<usize>), u64) {
    (peaks.len(), peaks.size_hint(), peaks.leaves().as_u64())
}

#[test]
fn peak_counts(rt: HostRuntime) {
    let nodes = mmb::Position::new(19);
    assert!(rt; nodes.is_valid_size());
    let mut peaks = PeakIterator::new(nodes);
    for count in [3, 2, 1, 0] {
        assert!(rt; told(&peaks) == (count, (count, Some(count)), 11));
        assert!(rt; peaks.next().is_some() == (count > 0));
    }
    let nodes = mmb::Position::new(MAX_NODES);
    assert!(rt; nodes.is_valid_size());
    assert!(rt; told(&PeakIterator::new(nodes)) == (62, (62, Some(62)), MAX_LEAVES));
}

#[test]
fn no_peaks(rt: HostRuntime) {
    assert!(rt; PeakIterator::to_nearest_size(mmb::Position::new(5)).as_u64() == 4);
    assert!(rt; told(&PeakIterator::default()) == (0, (0, Some(0)), 0));
    assert!(rt; PeakIterator::default().next().is_none());
}

#[test]
fn children(rt: HostRuntime) {
    let (left, right) = mmb::Family::children(mmb::Position::new(7), 2);
    assert!(rt; [left.as_u64(), right.as_u64()] == [2, 5]);
    let (left, right) = mmb::Family::children(mmb::Position::new(5), 1);
    assert!(rt; [left.as_u64(), right.as_u64()] == [3, 4]);
}

#[test]
fn chunk_peaks(rt: HostRuntime) {
    let found = [
        has_chunk::<mmb::Family>(8, 0, 2, &[(7, 2)]),
        has_chunk::<mmb::Family>(8, 1, 2, &[(9, 1), (12, 1)]),
        has_chunk::<mmb::Family>(8, 0, 3, &[(7, 2), (9, 1), (12, 1)]),
        has_chunk::<mmb::Family>(10, 0, 3, &[(7, 2), (14, 2)]),
        has_chunk::<mmb::Family>(11, 0, 3, &[(18, 3)]),
        has_chunk::<mmb::Family>(11, 0, 2, &[(7, 2)]),
        has_chunk::<mmb::Family>(11, 1, 2, &[(14, 2)]),
        has_chunk::<mmb::Family>(11, 3, 0, &[(4, 0)]),
        has_chunk::<mmb::Family>(MAX_LEAVES, 0, 61, &[OLDEST]),
    ];
    assert!(rt; found == [true; 9]);
}

// Of the greatest leaf count the first 2^62 leaves are under the peaks of heights 61 down to 6 and those of height 5. The
// last one is over leaves 2^62 - 32 on, and comes with leaf 2^62 + 14.
#[test]
fn greatest_chunk(rt: HostRuntime) {
    let nodes = mmb::Family::location_to_position(mmb::Location::new(MAX_LEAVES));
    let mut peaks = mmb::Family::chunk_peaks(nodes, 0, 62);
    let ends = (peaks.next(), peaks.last());
    let (position, height) = OLDEST;
    let oldest = (mmb::Position::new(position), height);
    let newest = (mmb::Position::new(MAX_NODES - 31), 5);
    assert!(rt; ends == (Some(oldest), Some(newest)));
}

#[test]
fn roots(rt: HostRuntime) {
    let (position, height) = OLDEST;
    let found = [
        root_of::<mmb::Family>(0, 0),
        root_of::<mmb::Family>(4, 2),
        root_of::<mmb::Family>(0, 3),
        // no node is over leaves 1 and 2, and none comes with leaf 2 but itself
        root_of::<mmb::Family>(1, 1),
        root_of::<mmb::Family>(0, height),
        root_of::<mmb::Family>(MAX_LEAVES, 0),
    ];
    let wanted = [
        [0, 0, 1],
        [14, 4, 9],
        [18, 0, 11],
        [4, 1, 3],
        [position, 0, 3 * (1 << 60) - 1],
        [MAX_NODES, MAX_LEAVES, MAX_LEAVES + 1],
    ];
    assert!(rt; found == wanted);
}
