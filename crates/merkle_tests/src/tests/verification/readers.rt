//! Refused proofs over nodes of three leaves of a Mountain Range, some of which are missing, with digests that were chosen by
//! hand.
ghost use Rattle.std.specs.Prelude.{◌≡◌, None, get_or};

use crate::tests::digest;
use merkle_core::digest::{Xor8, Xor8Digest};
use merkle_core::family::Bagging;
use merkle_core::hasher::Standard;
use merkle_core::mmr::{Error, Family, Location, Position};
use merkle_core::read::Readable;
use merkle_core::verification::{multi_proof, range_proof};
use std::process::Abort;

/// The nodes up to position 3, and a size.
#[derive(Drop)]
struct Nodes {
    size: Position,
    held: [Option<Xor8Digest>; 4],
}

impl Readable for Nodes {
    ghost use Rattle.std.specs.Prelude.{get_or, None};

    type Family = Family;

    type Digest = Xor8Digest;

    ghost size = { λ nodes. nodes.size };

    ghost node = { λ nodes p. get_or nodes.held p None };

    fn size(&self) -> Position {
        self.size
    }

    fn get_node(&self, position: Position) -> Option<Xor8Digest>
        ensures { result ≡ get_or self.now.held position None }
    {
        let index = position.as_u64();
        if index < 4 {
            self.held[index as usize]
        } else {
            None
        }
    }
}

/// The leaves 5 and 6 with the node 3 over them, and the leaf 9.
fn three_leaves(rt: &impl Abort) -> Nodes {
    Nodes {
        size: Position::new(4),
        held: [
            Some(digest(rt, 5)),
            Some(digest(rt, 6)),
            Some(digest(rt, 3)),
            Some(digest(rt, 9)),
        ],
    }
}

#[test]
fn refusals(rt: HostRuntime) {
    let mut nodes = three_leaves(&rt);
    let hasher = Standard::<Xor8>::new(Bagging::ForwardFold);
    nodes.held[1] = None;
    nodes.held[3] = None;
    // the least of the missing nodes is named, and the proof would begin with the other one
    let first = Location::new(0)..Location::new(1);
    let refused = range_proof(rt.alloc(), &hasher, &nodes, first, 0);
    assert!(rt; matches!(&refused, Err(Error::ElementPruned(at)) if *at == Position::new(1)));
    let refused = multi_proof(rt.alloc(), &nodes, 0, &[Location::new(1), Location::new(2)]);
    assert!(rt; matches!(&refused, Err(Error::ElementPruned(at)) if *at == Position::new(3)));
    // three leaves have two peaks
    let refused = multi_proof(rt.alloc(), &nodes, 3, &[Location::new(1)]);
    assert!(rt; matches!(&refused, Err(Error::InvalidProof)));
    nodes.size = Position::new(5);
    let refused = multi_proof(rt.alloc(), &nodes, 0, &[Location::new(1)]);
    assert!(rt; matches!(&refused, Err(Error::NonLeaf(size)) if *size == Position::new(5)));
    nodes.size = Position::new(u64::MAX);
    let first = Location::new(0)..Location::new(1);
    let refused = range_proof(rt.alloc(), &hasher, &nodes, first, 0);
    assert!(rt;
        matches!(&refused, Err(Error::PositionOverflow(size)) if *size == Position::new(u64::MAX))
    );
}
