//! Roots of older states of a Mountain Range of five leaves with the element 08.
//!
//! The leaves are 08, 09, 0b, 0c and 0f, with the nodes 03 and 02 over the first four, and 07 over these.

use crate::tests::{digest, repeated, structure_of};
use merkle_core::digest::{Xor8, Xor8Digest};
use merkle_core::family::Bagging;
use merkle_core::hasher::Standard;
use merkle_core::mmr::{Error, Location, Mmr, Position};
use merkle_core::verification::historical_root;
use std::alloc::Global;

/// The structure, pruned to a location; `None` where a call is refused.
fn five_leaves(alloc: Global, hasher: &Standard<Xor8>, boundary: u64) -> Option<Mmr<Xor8Digest>> {
    let elements = repeated(alloc, &[8], 5).ok()?;
    let mut structure = structure_of(alloc, hasher, &elements)?;
    if structure.prune(Location::new(boundary)).is_err() {
        return None;
    }
    Some(structure)
}

#[test]
fn roots_of_older_states(rt: HostRuntime) {
    let hasher = Standard::<Xor8>::new(Bagging::ForwardFold);
    let whole = five_leaves(rt.alloc(), &hasher, 0).expect(&rt, "memory");
    let root = historical_root(&hasher, &whole, Location::new(3), 0);
    assert!(rt; matches!(&root, Ok(root) if *root == digest(&rt, 11)));
    let root = historical_root(&hasher, &whole, Location::new(3), 1);
    assert!(rt; matches!(&root, Ok(root) if *root == digest(&rt, 10)));
    let root = historical_root(&hasher, &whole, Location::new(0), 0);
    assert!(rt; matches!(&root, Ok(root) if *root == digest(&rt, 0)));
    let refused = historical_root(&hasher, &whole, Location::new(3), 3);
    assert!(rt; matches!(&refused, Err(Error::InvalidProof)));
    let refused = historical_root(&hasher, &whole, Location::new(u64::MAX), 3);
    assert!(rt;
        matches!(&refused, Err(Error::LocationOverflow(at)) if *at == Location::new(u64::MAX))
    );
}

#[test]
fn roots_over_pruned_nodes(rt: HostRuntime) {
    let hasher = Standard::<Xor8>::new(Bagging::ForwardFold);
    let pruned = five_leaves(rt.alloc(), &hasher, 4).expect(&rt, "memory");
    let root = historical_root(&hasher, &pruned, Location::new(4), 0);
    assert!(rt; matches!(&root, Ok(root) if *root == digest(&rt, 3)));
    // the peaks of three leaves were the nodes at the positions 2 and 3
    let refused = historical_root(&hasher, &pruned, Location::new(3), 0);
    assert!(rt; matches!(&refused, Err(Error::ElementPruned(at)) if *at == Position::new(2)));
}
