//! Hashers: the digests of leaves, parent nodes, folded peaks and roots.

pub use merkle_hasher::hasher::{Hasher, Parent, root_string};
pub use merkle_leaves::standard::Standard;
