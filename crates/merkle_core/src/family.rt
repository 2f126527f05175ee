//! Families of Merkle structures, and what a grafted structure keeps of a chunk without a single
//! root.

pub use merkle_base::family::{
    Bagging, Family, Graftable, Listed, MAX_PINNED_NODES, NodesToPin, Work,
};
pub use merkle_codec::pending::{Grafting, PendingChunk, Unused};
