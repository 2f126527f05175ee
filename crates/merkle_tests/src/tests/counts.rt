//! How many nodes a batch computes, as it counts them and as a hasher counts its calls.

use super::{repeated, structure_of};
use merkle_core::batch::UnmerkleizedBatch;
use merkle_core::digest::Xor8;
use merkle_core::family::{Bagging, Family, Work};
use merkle_core::hasher::{Hasher, Standard};
use merkle_core::location::Location;
use merkle_core::mem::Mem;
use merkle_core::{mmb, mmr};
use merkle_fixtures::counting::Counting;
use std::alloc::Global;
use std::cell::Cell;

/// The batch with more leaves, and with other elements for some leaves; `None` where a call is refused.
fn with_changes<F: Family, H: Hasher<F>>(
    batch: UnmerkleizedBatch<F, H::Digest>,
    hasher: &H,
    added: &[&[u8]],
    locations: &[u64],
) -> Option<UnmerkleizedBatch<F, H::Digest>> {
    let Ok(mut batch) = batch.add_all(hasher, added) else {
        return None;
    };
    for location in locations {
        let Ok(next) = batch.update_leaf(hasher, Location::new(*location), &[0x80]) else {
            return None;
        };
        batch = next;
    }
    Some(batch)
}

/// The number of nodes that a batch over a structure counts, which adds some leaves and changes some; `None` where a call is
/// refused.
fn nodes_computed<F: Family, H: Hasher<F>>(
    structure: &Mem<F, H::Digest>,
    hasher: &H,
    added: &[&[u8]],
    changed: &[u64],
) -> Option<u64> {
    let Ok(batch) = structure.new_batch() else {
        return None;
    };
    let batch = with_changes(batch, hasher, added, changed)?;
    let mut work = Work::new();
    let Ok(_) = batch.merkleize_counted(structure, hasher, &mut work) else {
        return None;
    };
    Some(work.node_digests())
}

/// Of a batch over a structure of so many leaves, which adds some and changes some: the number of nodes that it counts, and the
/// numbers of pairs of nodes and of single nodes that the hasher is called for. `None` where a call is refused.
fn calls<F: Family>(
    alloc: Global,
    leaves: u64,
    added: u64,
    changed: &[u64],
) -> Option<(u64, u64, u64)> {
    let (pairs, singles, noted) = (Cell::new(0), Cell::new(0), Cell::new(0));
    let hasher = Counting {
        bagging: Bagging::ForwardFold,
        pairs: &pairs,
        singles: &singles,
        leaves: &noted,
        positions: &[],
    };
    let plain = Standard::<Xor8>::new(Bagging::ForwardFold);
    let elements = repeated(alloc, &[7], leaves).ok()?;
    let more = repeated(alloc, &[9], added).ok()?;
    let structure = structure_of::<F, _>(alloc, &plain, &elements)?;
    let counted = nodes_computed(&structure, &hasher, &more, changed)?;
    Some((counted, pairs.get(), singles.get()))
}

/// The number of nodes that such a batch counts, if the hasher is called for as many: `None` if it is not, or where a call is
/// refused.
fn nodes_hashed<F: Family>(alloc: Global, leaves: u64, added: u64, changed: &[u64]) -> Option<u64> {
    let (counted, pairs, singles) = calls::<F>(alloc, leaves, added, changed)?;
    if pairs.saturating_mul(2).saturating_add(singles) != counted {
        return None;
    }
    Some(counted)
}

#[test]
fn nodes_are_hashed_once(rt: HostRuntime) {
    let alloc = rt.alloc();
    // family, leaves, added, changed, nodes
    assert_eq!(rt; nodes_hashed::<mmr::Family>(alloc, 4, 2, &[0, 1]), Some(3));
    assert_eq!(rt; nodes_hashed::<mmr::Family>(alloc, 15, 0, &[14]), Some(0));
    assert_eq!(rt;
        nodes_hashed::<mmr::Family>(alloc, 15, 1, &[0, 12]),
        Some(8)
    );
    assert_eq!(rt; nodes_hashed::<mmr::Family>(alloc, 0, 2, &[0]), Some(1));
    assert_eq!(rt; nodes_hashed::<mmb::Family>(alloc, 4, 1, &[0]), Some(2));
    assert_eq!(rt; nodes_hashed::<mmr::Family>(alloc, 4, 0, &[]), Some(0));
    assert_eq!(rt;
        nodes_hashed::<mmr::Family>(alloc, 8, 0, &[0, 1, 2, 3, 4, 5, 6, 7]),
        Some(7)
    );
}

#[test]
fn nodes_are_hashed_in_pairs(rt: HostRuntime) {
    // four nodes of height 1 and two of height 2 in pairs, and the peak
    let counted = calls::<mmr::Family>(rt.alloc(), 8, 0, &[0, 1, 2, 3, 4, 5, 6, 7]);
    assert_eq!(rt; counted, Some((7, 3, 1)));
}
