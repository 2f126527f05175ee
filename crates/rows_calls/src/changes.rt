//! Elements and digests with a change.

use merkle_core::digest::Digest;
use rows_text::refusal::{Refusal, SYNTAX};
use std::alloc::Global;

/// Another element: the bytes, and one more, which is not 0.
pub fn changed(alloc: Global, element: &[u8]) -> Result<Vec<u8>, Refusal> {
    let mut other = element.to_vec(alloc)?;
    other.push(0x80)?;
    Ok(other)
}

/// Another digest: its bytes, of which the first has one bit changed.
pub fn other_digest<D: Digest>(alloc: Global, digest: &D) -> Result<D, Refusal> {
    let mut bytes = digest.as_bytes().to_vec(alloc)?;
    if let Some(first) = bytes.first_mut() {
        *first ^= 0x80;
    }
    D::from_bytes(bytes.as_slice()).ok_or(SYNTAX)
}
