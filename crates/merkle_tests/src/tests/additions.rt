//! Leaves added together, which are those added one by one.

use merkle_core::batch::UnmerkleizedBatch;
use merkle_core::digest::{Sha256Plain, Xor8};
use merkle_core::family::{Bagging, Family};
use merkle_core::hasher::{Hasher, Standard};
use merkle_core::mem::Mem;
use merkle_core::{mmb, mmr};
use std::alloc::Global;
use std::process::Abort;

/// The batch with these elements, which are added one by one or together; `None` where a call is refused.
fn with_elements<F: Family, H: Hasher<F>>(
    mut batch: UnmerkleizedBatch<F, H::Digest>,
    hasher: &H,
    elements: &[&[u8]],
    together: bool,
) -> Option<UnmerkleizedBatch<F, H::Digest>> {
    if together {
        return batch.add_all(hasher, elements).ok();
    }
    for element in elements {
        batch = match batch.add(hasher, element) {
            Ok(batch) => batch,
            Err(_) => return None,
        };
    }
    Some(batch)
}

/// The root over these elements, which are added one by one or together, after a first one.
fn root_of<F: Family, H: Hasher<F>>(
    alloc: Global,
    hasher: &H,
    elements: &[&[u8]],
    together: bool,
) -> Option<H::Digest> {
    let mut log = Mem::<F, H::Digest>::new(alloc);
    let Ok(batch) = log.new_batch() else {
        return None;
    };
    let Ok(batch) = batch.add(hasher, b"first") else {
        return None;
    };
    let batch = with_elements(batch, hasher, elements, together)?;
    let Ok(batch) = batch.merkleize(&log, hasher) else {
        return None;
    };
    let Ok(()) = log.apply_batch(&batch) else {
        return None;
    };
    log.root(hasher, 0).ok()
}

/// Asserts that `count` elements, the first of which are of that length and the others each one byte
/// longer than the one before, have the same root however they are added.
fn assert_added<F: Family, H: Hasher<F>>(
    rt: &(impl Abort + AllocGlobal),
    hasher: &H,
    count: usize,
    shortest: usize,
) {
    let bytes = [7u8; 256];
    let mut elements = Vec::new(rt.alloc());
    for i in 0..count.min(70) {
        assert!(rt; elements.push(&bytes[..(shortest.min(100) + i)]).is_ok());
    }
    let together = root_of(rt.alloc(), hasher, &elements, true);
    assert!(rt; together.is_some());
    assert!(rt;
        together == root_of(rt.alloc(), hasher, &elements, false),
        "{count} elements"
    );
}

/// Asserts the same of several counts, both below and above the leaves that are hashed at a time.
fn assert_counts<F: Family, H: Hasher<F>>(rt: &(impl Abort + AllocGlobal), hasher: &H) {
    for count in &[0, 1, 4, 5, 70] {
        assert_added(rt, hasher, *count, 0);
        assert_added(rt, hasher, *count, 45);
    }
}

#[test]
fn leaves_added_together(rt: HostRuntime) {
    let sha256 = Standard::<Sha256Plain>::new(Bagging::BackwardFold);
    assert_counts::<mmr::Family, _>(&rt, &sha256);
    assert_counts::<mmb::Family, _>(&rt, &sha256);
    let xor8 = Standard::<Xor8>::new(Bagging::BackwardFold);
    assert_counts::<mmr::Family, _>(&rt, &xor8);
    assert_counts::<mmb::Family, _>(&rt, &xor8);
}
