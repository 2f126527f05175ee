//! The Merkle Mountain Belt: the types of this crate for its family.

pub use merkle_topology::mmb::{
    ChunkPeaks, Error, Family, Location, ParentHeights, PeakIterator, Position,
    position_to_location_counted,
};

/// A Mountain Belt in memory.
pub type Mmb<D> = crate::mem::Mem<Family, D>;

/// A batch of added and updated leaves of a Mountain Belt, whose nodes are not computed yet.
pub type UnmerkleizedBatch<D> = merkle_batch::batch::UnmerkleizedBatch<Family, D>;

/// A batch of a Mountain Belt whose nodes are computed.
pub type MerkleizedBatch<D> = merkle_batch::batch::MerkleizedBatch<Family, D>;

/// The hasher over the plain hash function `H`.
pub type StandardHasher<H> = merkle_leaves::standard::Standard<H>;

/// A proof of leaves of a Mountain Belt.
pub type Proof<D> = merkle_proof::proof::Proof<Family, D>;
