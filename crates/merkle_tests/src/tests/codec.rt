ghost use Rattle.std.specs.Prelude.{IfErr, IsOk};
ghost use Rattle.merkle_codec.specs.Spelling.{IsOptionRefusal};

use merkle_core::codec::{EncodeSize, Read, Write};
use merkle_core::digest::{Digest, Sha256Digest, Xor8Digest};
use merkle_core::error::DecodeError;
use merkle_core::family::{PendingChunk, Unused};
use std::alloc::Global;

// The one digest of this type is the byte 07. No other bytes spell one.
#[derive(Clone, Copy, PartialEq, Eq, Debug)]
struct SevenDigest;

impl Digest for SevenDigest {
    ghost use Rattle.std.specs.Prelude.{◌≡◌, ◌∷◌, []};
    ghost use Rattle.std.proofs.Common.{rules};

    const SIZE: usize = 1;

    const EMPTY: Self = SevenDigest;

    ghost SIZE = { 1 };

    ghost EMPTY = { _ };

    ghost bytes = { λ _. 7 ∷ [] };

    ghost Spells = { λ b. b ≡ 7 ∷ [] };

    fn as_bytes(&self) -> &[u8] {
        &[7]
    }

    fn from_bytes(spelling: &[u8]) -> Option<Self> {
        match spelling {
            [7] => Some(SevenDigest),
            _ => None,
        }
    }

    ghost small = { Prim.search rules };

    ghost nonempty = { Prim.search rules };

    ghost clone_is_same = { Prim.search rules };

    ghost bytes_spell = { Prim.search rules };

    ghost one_length = { Prim.search rules };

    ghost bytes_decide = { Prim.search rules };

    ghost eq_decides = { Prim.search rules };
}

/// Whether a chunk is appended as this spelling, and read back with what follows left unread.
fn is_spelled<D, C: PendingChunk<D>>(alloc: Global, chunk: &C, spelling: &[u8]) -> bool {
    let mut out = Vec::new(alloc);
    if out.push(9).is_err() || chunk.write(&mut out).is_err() {
        return false;
    }
    let is_counted = chunk.encode_size() == spelling.len();
    let is_appended = out.as_slice().strip_prefix(&[9]) == Some(spelling);
    if out.extend_from_slice(&[1, 2]).is_err() {
        return false;
    }
    let mut input = &out[1..];
    let is_read = matches!(C::read(alloc, &mut input, &()), Ok(read) if read == *chunk);
    let is_left = input == [1, 2].as_slice();
    [is_counted, is_appended, is_read, is_left] == [true; 4]
}

#[test]
fn spellings(rt: HostRuntime) {
    let alloc = rt.alloc();
    let mut long = [5; 33];
    long[0] = 1;
    let xor8 = Xor8Digest::from_bytes(&[7]);
    let sha256 = Sha256Digest::from_bytes(&[5; 32]);
    let found = [
        is_spelled::<Xor8Digest, _>(alloc, &xor8, &[1, 7]),
        is_spelled::<Xor8Digest, _>(alloc, &None::<Xor8Digest>, &[0]),
        is_spelled::<Sha256Digest, _>(alloc, &sha256, &long),
        is_spelled::<Sha256Digest, _>(alloc, &None::<Sha256Digest>, &[0]),
        is_spelled::<SevenDigest, _>(alloc, &Some(SevenDigest), &[1, 7]),
        is_spelled::<Xor8Digest, _>(alloc, &Unused, &[]),
    ];
    assert!(rt; found == [true; 6]);
}

/// What a caller knows of an option of a digest: each refusal says what is wrong with the bytes.
fn read_option<D: Digest>(alloc: Global, input: &mut &[u8]) -> Result<Option<D>, DecodeError>
    ensures { IfErr result (λ e. IsOptionRefusal D.SIZE D.Spells input.old.now e) }
{
    Option::<D>::read(alloc, input, &())
}

/// What a caller knows of an `Unused`: it is always read.
fn read_unused(alloc: Global, input: &mut &[u8]) -> Result<Unused, DecodeError>
    ensures { IsOk result }
{
    Unused::read(alloc, input, &())
}

#[test]
fn unused_chunks(rt: HostRuntime) {
    let bytes: [u8; 2] = [1, 7];
    let mut input: &[u8] = &bytes;
    assert!(rt; read_unused(rt.alloc(), &mut input).is_ok() && input == [1, 7].as_slice());
}

/// Whether bytes are refused as too few, and the slice stays.
fn is_cut_short<D: Digest>(alloc: Global, bytes: &[u8]) -> bool {
    let mut input = bytes;
    let read = read_option::<D>(alloc, &mut input);
    matches!(read, Err(DecodeError::EndOfBuffer)) && input == bytes
}

/// Whether bytes are refused as no spelling, and the slice stays.
fn is_invalid<D: Digest>(alloc: Global, bytes: &[u8]) -> bool {
    let mut input = bytes;
    let read = read_option::<D>(alloc, &mut input);
    matches!(read, Err(DecodeError::Invalid)) && input == bytes
}

#[test]
fn refused_options(rt: HostRuntime) {
    let alloc = rt.alloc();
    let cut_short = [
        is_cut_short::<Xor8Digest>(alloc, &[]),
        is_cut_short::<Xor8Digest>(alloc, &[1]),
        is_cut_short::<Sha256Digest>(alloc, &[]),
        is_cut_short::<Sha256Digest>(alloc, &[1; 32]),
        is_cut_short::<SevenDigest>(alloc, &[1]),
    ];
    assert!(rt; cut_short == [true; 5]);
    let invalid = [
        is_invalid::<Xor8Digest>(alloc, &[2]),
        is_invalid::<Xor8Digest>(alloc, &[255, 7]),
        is_invalid::<Sha256Digest>(alloc, &[2; 33]),
        is_invalid::<SevenDigest>(alloc, &[1, 8]),
        is_invalid::<SevenDigest>(alloc, &[1, 8, 7]),
    ];
    assert!(rt; invalid == [true; 5]);
}

#[test]
fn held_digests(rt: HostRuntime) {
    let digest = Xor8Digest::from_bytes(&[7]);
    let unused = Unused.clone().ok().expect(&rt, "memory");
    let held = [
        PendingChunk::as_ref(&digest).copied(),
        PendingChunk::as_ref(&None).copied(),
        PendingChunk::as_ref(&unused).copied(),
    ];
    assert!(rt; held == [digest, None, None]);
}
