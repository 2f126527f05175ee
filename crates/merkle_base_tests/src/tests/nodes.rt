use merkle_base::family::Bagging;
use merkle_digest::digest::Xor8;
use merkle_fixtures::flat::{Family, Position};
use merkle_fixtures::keyed::Keyed;
use merkle_hasher::hasher::Hasher;
use merkle_hasher::nodes::node_digests;
use merkle_leaves::standard::Standard;
use merkle_sha256::sha256::Sha256Plain;
use std::process::Abort;

type Node<D> = (Position, D, D);

/// A list of nodes, each with children of its own.
pub fn some_nodes<H: Hasher<Family>>(
    rt: &(impl Abort + AllocGlobal),
    hasher: &H,
    count: u8,
) -> Vec<Node<H::Digest>> {
    let mut nodes = Vec::new(rt.alloc());
    for i in 0..count {
        let children = (hasher.digest(&[i, 1]), hasher.digest(&[i, 2]));
        let node = (Position::new(u64::from(i)), children.0, children.1);
        assert!(rt; nodes.push(node).is_ok());
    }
    nodes
}

/// Asserts that the digests of up to nine nodes are those of the nodes one by one, after what was there.
fn assert_digests<H: Hasher<Family>>(rt: &(impl Abort + AllocGlobal), hasher: &H) {
    for count in 0..10 {
        let nodes = some_nodes(rt, hasher, count);
        let first = hasher.digest(&[]);
        let (mut wanted, mut digests) = (Vec::new(rt.alloc()), Vec::new(rt.alloc()));
        assert!(rt; wanted.push(first).is_ok() && digests.push(first).is_ok());
        for node in &nodes {
            let digest = hasher.node_digest(node.0, &node.1, &node.2);
            assert!(rt; wanted.push(digest).is_ok());
        }
        assert!(rt; node_digests(hasher, &nodes, &mut digests).is_ok());
        assert!(rt; digests == wanted, "{count} nodes");
    }
}

#[test]
fn nodes_as_one_by_one(rt: HostRuntime) {
    let sha256 = Standard::<Sha256Plain>::new(Bagging::ForwardFold);
    assert_digests(&rt, &sha256);
    assert_digests(&rt, &&sha256);
    assert_digests(&rt, &Standard::<Xor8>::new(Bagging::ForwardFold));
    assert_digests(&rt, &Keyed::new(0x50, Bagging::ForwardFold));
}
