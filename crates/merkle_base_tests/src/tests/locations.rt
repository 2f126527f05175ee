//! Locations by position, each compared with the position of the next leaf.
ghost use Rattle.std.specs.Prelude.{◌≤◌};

use merkle_base::family::{Family, Work};
use merkle_base::location::Location;
use merkle_base::position::Position;
use merkle_topology::{mmb, mmr};

const MMR_MAX_NODES: u64 = 9223372036854775807;

const MMB_MAX_NODES: u64 = 9223372036854775806;

// 2^62 - 70
const LATE_LEAF: u64 = 4611686018427387834;

/// A family whose look-up of a position is counted.
trait Counted: Family {
    fn find(position: Position<Self>, work: &mut Work) -> Option<Location<Self>>
        requires { position ≤ Self.MAX_NODES };
}

impl Counted for mmr::Family {
    fn find(position: mmr::Position, work: &mut Work) -> Option<mmr::Location>
        requires { position ≤ 9223372036854775807 }
    {
        mmr::position_to_location_counted(position, work)
    }
}

impl Counted for mmb::Family {
    fn find(position: mmb::Position, work: &mut Work) -> Option<mmb::Location>
        requires { position ≤ 9223372036854775806 }
    {
        mmb::position_to_location_counted(position, work)
    }
}

/// The number of leaves at the positions from `first` to `last`, the first of which is `leaf`. `None` if a position has
/// another location than this walk finds, or took more than `most` comparisons.
fn leaves_between<F: Counted>(first: u64, last: u64, leaf: u64, most: u64) -> Option<u64> {
    let mut work = Work::new();
    let mut next = Location::<F>::new(leaf);
    let mut found: u64 = 0;
    for index in first..=last {
        let position = Position::<F>::new(index);
        if !position.is_valid() || !next.is_valid() {
            return None;
        }
        let is_leaf = F::location_to_position(next) == position;
        let location = if is_leaf { Some(next) } else { None };
        if F::find(position, &mut work) != location || work.probes() > most {
            return None;
        }
        if F::position_to_location(position) != location {
            return None;
        }
        if is_leaf {
            next = next.saturating_add(1);
            found = found.saturating_add(1);
        }
    }
    Some(found)
}

/// The number of comparisons of the look-up of a position, if it is one.
fn probes<F: Counted>(position: u64) -> Option<u64> {
    let mut work = Work::new();
    let position = Position::<F>::new(position);
    if !position.is_valid() {
        return None;
    }
    let _ = F::find(position, &mut work);
    Some(work.probes())
}

#[test]
fn first_positions(rt: HostRuntime) {
    let last = 1 << 20;
    assert!(rt; leaves_between::<mmr::Family>(0, last, 0, 8) == Some(524290));
    assert!(rt; leaves_between::<mmb::Family>(0, last, 0, 2) == Some(524298));
}

#[test]
fn last_positions(rt: HostRuntime) {
    let mmr = leaves_between::<mmr::Family>(MMR_MAX_NODES - 199, MMR_MAX_NODES, LATE_LEAF, 8);
    assert!(rt; mmr == Some(71));
    let mmb = leaves_between::<mmb::Family>(MMB_MAX_NODES - 199, MMB_MAX_NODES, LATE_LEAF, 2);
    assert!(rt; mmb == Some(101));
}

#[test]
fn few_comparisons(rt: HostRuntime) {
    assert!(rt; matches!(probes::<mmr::Family>(19), Some(1..=3)));
    assert!(rt; matches!(probes::<mmr::Family>(MMR_MAX_NODES), Some(1..=3)));
    assert!(rt; matches!(probes::<mmb::Family>(MMB_MAX_NODES), Some(1..=2)));
}

#[test]
fn work(rt: HostRuntime) {
    let mut work = Work::new();
    assert!(rt; work == Work::default() && work.probes() == 0 && work.node_digests() == 0);
    work.set_node_digests(5);
    work.set_probes(7);
    let copy = work;
    work.set_probes(6);
    let counts = [
        copy.node_digests(),
        copy.probes(),
        work.node_digests(),
        work.probes(),
    ];
    assert!(rt; counts == [5, 7, 5, 6]);
}
