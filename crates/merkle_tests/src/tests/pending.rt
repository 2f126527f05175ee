//! What each family keeps of a chunk without a root of its own.

use merkle_core::codec::EncodeSize;
use merkle_core::digest::{Digest, Xor8Digest};
use merkle_core::error::DecodeError;
use merkle_core::family::{Grafting, PendingChunk};
use merkle_core::{mmb, mmr};

/// The pending chunk of the Mountain Range.
type RangeChunk = <mmr::Family as Grafting<Xor8Digest>>::PendingChunk;

/// The pending chunk of the Mountain Belt.
type BeltChunk = <mmb::Family as Grafting<Xor8Digest>>::PendingChunk;

#[test]
fn none_in_the_range(rt: HostRuntime) {
    let digest = Xor8Digest::from_bytes(&[7]);
    assert!(rt; digest.is_some());
    let refused = <RangeChunk as PendingChunk<Xor8Digest>>::try_from_option(digest);
    assert!(rt; matches!(refused, Err(DecodeError::Invalid)));
    let chunk = <RangeChunk as PendingChunk<Xor8Digest>>::try_from_option(None);
    assert!(rt; matches!(&chunk, Ok(chunk) if chunk.encode_size() == 0));
}

#[test]
fn one_digest_in_the_belt(rt: HostRuntime) {
    let digest = Xor8Digest::from_bytes(&[7]);
    let chunk = <BeltChunk as PendingChunk<Xor8Digest>>::try_from_option(digest);
    assert!(rt; matches!(&chunk, Ok(chunk) if *chunk == digest && chunk.encode_size() == 2));
    let chunk = <BeltChunk as PendingChunk<Xor8Digest>>::try_from_option(None);
    assert!(rt; matches!(&chunk, Ok(chunk) if chunk.is_none() && chunk.encode_size() == 1));
}
