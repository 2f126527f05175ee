//! The numbers that the calls answer, as `verifier/merkle_verifier.h` names them: 0 is accepted, read or hashed, and every other
//! number is not.

/// The proof is accepted.
pub(crate) const ACCEPTED: u32 = 0;

/// The proof is not accepted.
pub(crate) const REJECTED: u32 = 1;

/// The bytes of the proof encode none, or others follow.
pub(crate) const MALFORMED: u32 = 2;

/// The bytes of a root, of pins, or of the digests of leaves, are not those of digests.
pub(crate) const NOT_A_DIGEST: u32 = 3;

/// The lengths of the elements do not add up to the length of their buffer, or there are not as many of them, or of the digests
/// of leaves, as locations.
pub(crate) const WRONG_LENGTHS: u32 = 4;

/// A request for memory was refused.
pub(crate) const OUT_OF_MEMORY: u32 = 5;

/// The bytes are read as a proof, which says nothing of whether it is accepted.
pub(crate) const READ: u32 = 0;

/// The bytes of the proof end too early.
pub(crate) const END_OF_BUFFER: u32 = 16;

/// One of the three numbers of the proof is not in its shortest form, or exceeds 64 bits.
pub(crate) const INVALID_VARINT: u32 = 17;

/// The leaf count of the proof exceeds that of its family.
pub(crate) const INVALID: u32 = 18;

/// Bytes follow those of the proof.
pub(crate) const TRAILING: u32 = 20;

/// The digest of a leaf is written.
pub(crate) const HASHED: u32 = 0;

/// No leaf of the family has that location.
pub(crate) const NO_LOCATION: u32 = 32;
