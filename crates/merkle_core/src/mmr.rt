//! The Merkle Mountain Range: the types of this crate for its family.

pub use merkle_proof::proof::MAX_PROOF_DIGESTS_PER_ELEMENT;
pub use merkle_topology::mmr::{
    ChunkPeaks, Error, Family, Location, ParentHeights, PeakIterator, Position,
    position_to_location_counted,
};

/// A Mountain Range in memory.
pub type Mmr<D> = crate::mem::Mem<Family, D>;

/// A batch of added and updated leaves of a Mountain Range, whose nodes are not computed yet.
pub type UnmerkleizedBatch<D> = merkle_batch::batch::UnmerkleizedBatch<Family, D>;

/// A batch of a Mountain Range whose nodes are computed.
pub type MerkleizedBatch<D> = merkle_batch::batch::MerkleizedBatch<Family, D>;

/// The hasher over the plain hash function `H`.
pub type StandardHasher<H> = merkle_leaves::standard::Standard<H>;

/// A proof of leaves of a Mountain Range.
pub type Proof<D> = merkle_proof::proof::Proof<Family, D>;
