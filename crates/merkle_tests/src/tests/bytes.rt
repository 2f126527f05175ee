//! Positions, locations and long proofs as bytes.

use merkle_core::codec::{EncodeSize, Read, Write, max_encode_size};
use merkle_core::digest::{Digest, Sha256Digest, Xor8Digest};
use merkle_core::error::DecodeError;
use merkle_core::location::Location;
use merkle_core::position::Position;
use merkle_core::proof::Proof;
use merkle_core::{mmb, mmr};

#[test]
fn locations(rt: HostRuntime) {
    let bytes: [u8; 9] = [129, 128, 128, 128, 128, 128, 128, 128, 64];
    let mut input: &[u8] = &bytes;
    let refused = Location::<mmr::Family>::read(rt.alloc(), &mut input, &());
    assert!(rt; matches!(refused, Err(DecodeError::Invalid)) && input == bytes.as_slice());
    let read = Location::<mmb::Family>::read(rt.alloc(), &mut input, &());
    assert!(rt; matches!(read, Ok(location) if location.as_u64() == 4611686018427387905));
    assert!(rt; input.is_empty());
}

#[test]
fn bytes_after_a_location(rt: HostRuntime) {
    let location = Location::<mmb::Family>::new(16384);
    let mut out = Vec::new(rt.alloc());
    assert!(rt; location.write(&mut out).is_ok() && location.encode_size() == 3);
    assert!(rt; out.as_slice() == [128, 128, 1].as_slice());
    assert!(rt; out.push(128).is_ok());
    let mut input = out.as_slice();
    let read = Location::<mmb::Family>::read(rt.alloc(), &mut input, &());
    assert!(rt; matches!(read, Ok(read) if read == location) && input == [128].as_slice());
    let cut = Location::<mmb::Family>::read(rt.alloc(), &mut input, &());
    assert!(rt; matches!(cut, Err(DecodeError::EndOfBuffer)) && input == [128].as_slice());
}

#[test]
fn positions(rt: HostRuntime) {
    let mut overlong: &[u8] = &[128, 0];
    let refused = Position::<mmr::Family>::read(rt.alloc(), &mut overlong, &());
    assert!(rt; matches!(refused, Err(DecodeError::InvalidVarint)));
    let mut greatest: &[u8] = &[255, 255, 255, 255, 255, 255, 255, 255, 255, 1];
    let past = Position::<mmr::Family>::read(rt.alloc(), &mut greatest, &());
    assert!(rt; matches!(past, Err(DecodeError::Invalid)));
    let position = Position::<mmr::Family>::new(300);
    let mut out = Vec::new(rt.alloc());
    assert!(rt; out.push(7).is_ok());
    assert!(rt; position.write(&mut out).is_ok() && position.encode_size() == 2);
    assert!(rt; out.as_slice() == [7, 172, 2].as_slice());
    let mut input: &[u8] = &[172, 2, 5];
    let read = Position::<mmr::Family>::read(rt.alloc(), &mut input, &());
    assert!(rt; matches!(read, Ok(read) if read == position) && input == [5].as_slice());
}

#[test]
fn long_digests(rt: HostRuntime) {
    let mut digests = Vec::new(rt.alloc());
    if let Some(digest) = Sha256Digest::from_bytes(&[5; 32]) {
        assert!(rt; digests.push(digest).is_ok());
    }
    let proof = Proof::<mmb::Family, Sha256Digest> {
        leaves: Location::new(1),
        inactive_peaks: 0,
        digests,
    };
    let mut out = Vec::new(rt.alloc());
    assert!(rt; proof.write(&mut out).is_ok() && out.len() == 35 && proof.encode_size() == 35);
    let mut input = out.as_slice();
    let read = Proof::<mmb::Family, Sha256Digest>::read(rt.alloc(), &mut input, &1);
    assert!(rt; matches!(&read, Ok(read) if *read == proof) && input.is_empty());
}

#[test]
fn greatest_sizes(rt: HostRuntime) {
    assert!(rt; max_encode_size::<Xor8Digest>(0) == 21);
    assert!(rt; max_encode_size::<Sha256Digest>(122) == 3925);
}
