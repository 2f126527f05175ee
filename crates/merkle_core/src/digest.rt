//! Digests, and the plain hash functions that compute them.

pub use merkle_digest::digest::{BLOCK_COUNT_BOUND, Digest, PlainHasher, Xor8, Xor8Digest};
pub use merkle_sha256::sha256::{Sha256Digest, Sha256Plain};
