//! The structures and batches of one family and hasher, by their names.

use merkle_core::batch::{MerkleizedBatch, UnmerkleizedBatch};
use merkle_core::family::Family;
use merkle_core::hasher::Hasher;
use merkle_core::mem::Mem;
use merkle_core::verification::ProofStore;
use std::alloc::Global;
use std::collections::HashMap;
use std::rc::Rc;

/// What the lines so far have made.
///
/// A structure, a batch that takes leaves, one with its nodes and a store of a proof may have the same name.
#[derive(Drop)]
pub struct World<F: Family, H: Hasher<F> + Drop> {
    pub alloc: Global,
    pub hasher: H,
    pub structures: HashMap<String, Mem<F, H::Digest>>,
    pub drafts: HashMap<String, UnmerkleizedBatch<F, H::Digest>>,
    pub batches: HashMap<String, Rc<MerkleizedBatch<F, H::Digest>>>,
    pub stores: HashMap<String, ProofStore<F, H::Digest>>,
}

impl<F: Family, H: Hasher<F> + Drop> World<F, H> {
    /// Nothing yet.
    pub fn new(alloc: Global, hasher: H) -> Self {
        World {
            alloc,
            hasher,
            structures: HashMap::new(alloc),
            drafts: HashMap::new(alloc),
            batches: HashMap::new(alloc),
            stores: HashMap::new(alloc),
        }
    }
}
