//! Paths from a node down to a leaf.
ghost use Rattle.std.specs.Prelude.{◌<◌};

use merkle_base::family::Family;
use merkle_base::location::Location;
use merkle_base::position::Position;
use merkle_fixtures::pairs;
use merkle_leaves::path::Iterator;
use merkle_topology::{mmb, mmr};

/// Whether a path has these items: a node, its other child, and its height.
fn has_items<F: Family>(path: Iterator<F>, items: &[(u64, u64, u32)]) -> bool {
    let mut wanted = items.iter();
    for (node, other, height) in path {
        match wanted.next() {
            Some(item) if *item == (node.as_u64(), other.as_u64(), height) => {}
            _ => return false,
        }
    }
    wanted.next().is_none()
}

/// The path to one of the four leaves under the node 6 of the Mountain Range.
fn under_six(target: u64) -> Iterator<mmr::Family>
    requires { target < 4 }
{
    Iterator::new(Position::new(6), 2, Location::new(0), Location::new(target))
}

#[test]
fn leaves_of_a_peak(rt: HostRuntime) {
    assert!(rt; has_items(under_six(0), &[(6, 5, 2), (2, 1, 1)]));
    assert!(rt; has_items(under_six(1), &[(6, 5, 2), (2, 0, 1)]));
    assert!(rt; has_items(under_six(2), &[(6, 2, 2), (5, 4, 1)]));
    assert!(rt; has_items(under_six(3), &[(6, 2, 2), (5, 3, 1)]));
}

// Seven leaves have the peaks 6, 9 and 10.
#[test]
fn leaf_as_a_peak(rt: HostRuntime) {
    let (node, location) = (Position::new(10), Location::new(6));
    let path = Iterator::<mmr::Family>::new(node, 0, location, location);
    assert!(rt; has_items(path, &[]));
}

// The node 13 stands over the leaves 4 to 7, and is no peak of eight leaves.
#[test]
fn node_under_a_peak(rt: HostRuntime) {
    let (node, first, target) = (Position::new(13), Location::new(4), Location::new(6));
    let path = Iterator::<mmr::Family>::new(node, 2, first, target);
    assert!(rt; has_items(path, &[(13, 9, 2), (12, 11, 1)]));
}

// The Mountain Belt has the node 7 over its first four leaves once there are five.
#[test]
fn leaf_of_the_belt(rt: HostRuntime) {
    let (node, first, target) = (Position::new(7), Location::new(0), Location::new(3));
    let path = Iterator::<mmb::Family>::new(node, 2, first, target);
    assert!(rt; has_items(path, &[(7, 2, 2), (5, 3, 1)]));
}

#[test]
fn leaf_of_a_pair(rt: HostRuntime) {
    let (node, first, target) = (Position::new(5), Location::new(2), Location::new(3));
    let path = Iterator::<pairs::Family>::new(node, 1, first, target);
    assert!(rt; has_items(path, &[(5, 3, 1)]));
}

#[test]
fn rest_of_a_path(rt: HostRuntime) {
    let mut path = under_six(2);
    let whole = format!(in rt.alloc(); "{path:?}")
        .ok()
        .expect(&rt, "memory");
    let is_first = path.next().is_some();
    let rest = format!(in rt.alloc(); "{path:?}")
        .ok()
        .expect(&rt, "memory");
    assert!(rt; whole.as_str().starts_with(WHOLE), "{whole}");
    assert!(rt; rest.as_str().starts_with(REST) && is_first, "{rest}");
}

const WHOLE: &str =
    "Iterator { node: Subtree { position: Position(6), height: 2, first_leaf: Location(0) }, target: Location(2) }";

const REST: &str =
    "Iterator { node: Subtree { position: Position(5), height: 1, first_leaf: Location(2) }, target: Location(2) }";
