//! The digests of the leaves that a structure holds, and its components and itself as bytes, at the leaves with the element 08.

use super::{digest, repeated, structure_of};
use merkle_core::codec::{EncodeSize, Read, Write};
use merkle_core::digest::{Xor8, Xor8Digest};
use merkle_core::error::DecodeError;
use merkle_core::family::{Bagging, Family};
use merkle_core::hasher::Standard;
use merkle_core::location::Location;
use merkle_core::mem::{Config, ConfigLimits, Mem};
use merkle_core::{mmb, mmr};
use std::alloc::Global;
use std::process::Abort;

/// The digests of the leaves that are left of five once the first two are pruned; `None` where a call is refused.
fn left_of_five<F: Family>(alloc: Global) -> Option<Vec<Xor8Digest>> {
    let hasher = Standard::<Xor8>::new(Bagging::ForwardFold);
    let elements = repeated(alloc, &[8], 5).ok()?;
    let mut structure = structure_of::<F, _>(alloc, &hasher, &elements)?;
    if structure.prune(Location::new(2)).is_err() {
        return None;
    }
    let mut digests = Vec::new(alloc);
    for digest in structure.leaf_digests() {
        digests.push(digest).ok()?;
    }
    Some(digests)
}

#[test]
fn leaf_digests(rt: HostRuntime) {
    // the leaves are at the positions 3, 4 and 7
    let left = left_of_five::<mmr::Family>(rt.alloc()).expect(&rt, "memory");
    let range = [digest(&rt, 11), digest(&rt, 12), digest(&rt, 15)];
    assert!(rt; left.as_slice() == range.as_slice());
    // and here at 3, 4 and 6
    let left = left_of_five::<mmb::Family>(rt.alloc()).expect(&rt, "memory");
    let belt = [digest(&rt, 11), digest(&rt, 12), digest(&rt, 14)];
    assert!(rt; left.as_slice() == belt.as_slice());
}

/// The components of five leaves of a Mountain Range that were pruned to location 2.
fn components(rt: &(impl Abort + AllocGlobal)) -> Config<mmr::Family, Xor8Digest> {
    let nodes = [
        digest(rt, 11),
        digest(rt, 12),
        digest(rt, 2),
        digest(rt, 7),
        digest(rt, 15),
    ];
    Config {
        nodes: nodes
            .as_slice()
            .to_vec(rt.alloc())
            .ok()
            .expect(rt, "memory"),
        pruning_boundary: Location::new(2),
        pinned_nodes: [digest(rt, 3)]
            .as_slice()
            .to_vec(rt.alloc())
            .ok()
            .expect(rt, "memory"),
    }
}

/// Reads a configuration under a limit on its nodes, with one pinned digest at most.
fn read(
    alloc: Global,
    input: &mut &[u8],
    nodes: usize,
) -> Result<Config<mmr::Family, Xor8Digest>, DecodeError> {
    let limits = ConfigLimits {
        pinned_nodes: 1,
        nodes,
    };
    Config::read(alloc, input, &limits)
}

#[test]
fn components_as_bytes(rt: HostRuntime) {
    let config = components(&rt);
    let mut out = Vec::new(rt.alloc());
    assert!(rt; config.write(&mut out).is_ok() && config.encode_size() == 9);
    assert!(rt; out.as_slice() == [2, 1, 3, 5, 11, 12, 2, 7, 15].as_slice());
    let mut input = out.as_slice();
    let few = read(rt.alloc(), &mut input, 4);
    assert!(rt; matches!(few, Err(DecodeError::TooMany)) && input.len() == 9);
    let whole = read(rt.alloc(), &mut input, 5);
    assert!(rt; matches!(&whole, Ok(whole) if whole.nodes == config.nodes) && input.is_empty());
    let mut overlong: &[u8] = &[2, 1, 3, 128, 0];
    let refused = read(rt.alloc(), &mut overlong, 5);
    assert!(rt; matches!(refused, Err(DecodeError::InvalidVarint)) && overlong.len() == 5);
}

/// The bytes of the structure with these components; `None` where a call is refused, or if they are not as many as it says.
fn written(alloc: Global, config: Config<mmr::Family, Xor8Digest>) -> Option<Vec<u8>> {
    let Ok(structure) = Mem::init(config) else {
        return None;
    };
    let mut out = Vec::new(alloc);
    let is_whole = structure.write(&mut out).is_ok() && structure.encode_size() == out.len();
    is_whole.then_some(out)
}

#[test]
fn structure_as_bytes(rt: HostRuntime) {
    let out = written(rt.alloc(), components(&rt)).expect(&rt, "memory");
    assert!(rt; out.as_slice() == [2, 1, 3, 5, 11, 12, 2, 7, 15].as_slice());
}
