//! The digests of nodes, measured at one hash.

use crate::stopwatch::Stopwatch;
use merkle_core::family::Family;
use merkle_core::hasher::Hasher;
use merkle_core::nodes::node_digests;
use merkle_core::position::Position;
use std::alloc::{AllocError, Global};
use std::time::CpuClock;

/// A position, and the digests of the children of the node there.
type Node<F, D> = (Position<F>, D, D);

/// How many nodes are measured.
const NODES: u64 = 1000;

/// Computes the digests of nodes, one by one and then together, and compares them.
pub fn measure_nodes<F: Family, H: Hasher<F>, C: CpuClock>(
    alloc: Global,
    watch: &mut Stopwatch<C>,
    tree: &'static str,
    hasher: &H,
) -> Option<()> {
    let nodes: Vec<Node<F, H::Digest>> = some_nodes(alloc, hasher).ok()?;
    let mut apart = Vec::new(alloc);
    let start = watch.now();
    one_by_one(hasher, &nodes, &mut apart).ok()?;
    watch.note(tree, "digests of nodes, one by one", NODES, start);
    let mut together = Vec::new(alloc);
    let start = watch.now();
    node_digests(hasher, &nodes, &mut together).ok()?;
    watch.note(tree, "digests of nodes, together", NODES, start);
    watch.is_whole &= apart == together;
    Some(())
}

// Nodes with children of their own.
fn some_nodes<F: Family, H: Hasher<F>>(
    alloc: Global,
    hasher: &H,
) -> Result<Vec<Node<F, H::Digest>>, AllocError> {
    let mut nodes = Vec::new(alloc);
    for i in 0..NODES {
        let left = hasher.digest(&(2 * i).to_be_bytes());
        let right = hasher.digest(&(2 * i + 1).to_be_bytes());
        nodes.push((Position::new(i), left, right))?;
    }
    Ok(nodes)
}

// Appends the digest of each node by a call for each.
fn one_by_one<F: Family, H: Hasher<F>>(
    hasher: &H,
    nodes: &[Node<F, H::Digest>],
    digests: &mut Vec<H::Digest>,
) -> Result<(), AllocError> {
    for node in nodes {
        digests.push(hasher.node_digest(node.0, &node.1, &node.2))?;
    }
    Ok(())
}
