//! Proofs that are given as bytes.
ghost use Rattle.std.specs.Prelude.{◌≡◌, IfOk, IfErr};
ghost use Rattle.merkle_verifier.specs.Inputs.{IsSpelled};
ghost use Rattle.merkle_verifier.specs.Unread.{IsUnread, refused_answer, reason};

use crate::answer::{END_OF_BUFFER, INVALID, INVALID_VARINT, MALFORMED, OUT_OF_MEMORY, TRAILING};
use merkle_base::error::DecodeError;
use merkle_base::family::Family;
use merkle_codec::codec::Read;
use merkle_proof::proof::Proof;
use merkle_sha256::sha256::Sha256Digest;
use std::alloc::Global;

/// Why bytes are not read as a proof.
#[derive(Drop)]
pub(crate) enum ReadError {
    /// They end before the proof does.
    EndOfBuffer,
    /// One of the three numbers of the proof is not in its shortest form, or exceeds 64 bits.
    InvalidVarint,
    /// The leaf count of the proof exceeds that of its family.
    Invalid,
    /// A request for memory was refused.
    OutOfMemory,
    /// They begin with a proof, and others follow.
    Trailing,
}

impl ReadError {
    /// Returns the answer of a check of a proof that is not read.
    pub(crate) fn answer(&self) -> u32
        ensures { result ≡ refused_answer self.now }
    {
        match self {
            ReadError::OutOfMemory => OUT_OF_MEMORY,
            _ => MALFORMED,
        }
    }

    /// Returns the number of the reason.
    pub(crate) fn reason(&self) -> u32
        ensures { result ≡ reason self.now }
    {
        match self {
            ReadError::EndOfBuffer => END_OF_BUFFER,
            ReadError::InvalidVarint => INVALID_VARINT,
            ReadError::Invalid => INVALID,
            ReadError::OutOfMemory => OUT_OF_MEMORY,
            ReadError::Trailing => TRAILING,
        }
    }
}

/// Decodes the proof whose encoding the bytes are.
///
/// The number of its digests is limited by the bytes alone. The decoder asks for a limit, and is given the greatest number of 64
/// bits: it refuses a greater one as a number that does not fit, so it never answers that there are too many digests.
pub(crate) fn read_proof<F: Family>(
    alloc: Global,
    bytes: &[u8],
) -> Result<Proof<F, Sha256Digest>, ReadError>
    ensures ok { IfOk result (λ p. IsSpelled F.MAX_LEAVES bytes.now p.leaves p.inactive_peaks p.digests.items) }
    ensures err { IfErr result (λ e. IsUnread F.MAX_LEAVES bytes.now e) }
{
    let mut rest = bytes;
    let proof = match Proof::read(alloc, &mut rest, &usize::MAX) {
        Ok(proof) => proof,
        Err(error) => match error {
            DecodeError::EndOfBuffer => return Err(ReadError::EndOfBuffer),
            DecodeError::InvalidVarint => return Err(ReadError::InvalidVarint),
            DecodeError::Invalid => return Err(ReadError::Invalid),
            DecodeError::OutOfMemory => return Err(ReadError::OutOfMemory),
            DecodeError::TooMany => unreachable!(),
        },
    };
    if rest.is_empty() {
        Ok(proof)
    } else {
        Err(ReadError::Trailing)
    }
}
