//! Error types of the Merkle layer.
ghost use Rattle.std.specs.Prelude.{◌≡◌};

use crate::location::Location;
use crate::position::Position;
use std::alloc::{AllocError, AllocFailed};
use thiserror::Error;

/// Why a call on a structure, a batch, a proof or a store of family `F` failed.
///
/// Unless its documentation says otherwise, a call that fails changes nothing.
#[derive(Debug, Drop, Error)]
pub enum Error<F> {
    /// The position is not that of a leaf: no leaf count has this many nodes. Returned by the
    /// conversion of a [`Position`] to a [`Location`], and by the proofs over a reader whose size
    /// this is.
    #[error("{0} is not a leaf")]
    NonLeaf(Position<F>),
    /// The position, or the node count of a reader, exceeds
    /// [`MAX_NODES`](crate::family::Family::MAX_NODES).
    #[error("{0} > MAX_NODES")]
    PositionOverflow(Position<F>),
    /// The location or leaf count exceeds the family's limit.
    ///
    /// A leaf count is limited by [`MAX_LEAVES`](crate::family::Family::MAX_LEAVES), and the
    /// location of a leaf is below it. When leaves are added past the limit, the payload is the
    /// limit.
    #[error("{0} > MAX_LEAVES")]
    LocationOverflow(Location<F>),
    /// The range has no leaves, or there are no locations or no elements to prove.
    #[error("range is empty")]
    Empty,
    /// The range ends after the last leaf. The payload is the end of the range; for a single
    /// location it is the location after it.
    #[error("range end out of bounds: {0}")]
    RangeOutOfBounds(Location<F>),
    /// No leaf count has this node count. The payload is `u64::MAX` if the node count exceeds
    /// [`MAX_NODES`](crate::family::Family::MAX_NODES).
    #[error("invalid size: {0}")]
    InvalidSize(u64),
    /// The structure or batch has no leaf at the location; when pruning, the location exceeds the
    /// leaf count.
    #[error("leaf location out of bounds: {0}")]
    LeafOutOfBounds(Location<F>),
    /// The location equals the one before it in a list that must strictly ascend.
    #[error("duplicate leaf location: {0}")]
    DuplicateLocation(Location<F>),
    /// The location is less than the one before it in a list that must strictly ascend.
    #[error("unsorted leaf location: {0}")]
    UnsortedLocation(Location<F>),
    /// A proof needs the node at the position and it is not available, because it was pruned or
    /// never stored; or the leaf at the position is to be updated and lies before the pruning
    /// boundary.
    #[error("element pruned: {0}")]
    ElementPruned(Position<F>),
    /// The proof needs the peak at the position, and the store has its digest only folded with
    /// those of other peaks.
    #[error("digest hidden behind synthetic accumulator: {0}")]
    CompressedDigest(Position<F>),
    /// The number of pinned digests differs from the number of peaks at the pruning boundary.
    #[error("invalid pinned nodes")]
    InvalidPinnedNodes,
    /// The batch cannot be applied: the structure is neither at the state before the oldest record
    /// that the batch keeps nor at the state after one of its kept ancestors. Returned if
    /// [`AncestorDropped`](Error::AncestorDropped) does not apply.
    #[error("stale batch: no matching chain state (size {actual}, fork size {expected})")]
    StaleBatch {
        /// The size in nodes of the structure that the chain of batches was forked from.
        expected: Position<F>,
        /// The present size in nodes of the structure.
        actual: Position<F>,
    },
    /// The batch cannot be applied, as for [`StaleBatch`](Error::StaleBatch), and the size of the
    /// structure is at least the one at the fork and less than the one before the oldest kept
    /// record: a record that would be needed was dropped.
    #[error("ancestor dropped: expected size {expected}, actual size {actual}")]
    AncestorDropped {
        /// The size in nodes after the batch.
        expected: Position<F>,
        /// The present size in nodes of the structure.
        actual: Position<F>,
    },
    /// More peaks are called inactive than there are, when a proof is generated; or the given proof
    /// has the wrong shape for its elements.
    #[error("invalid proof")]
    InvalidProof,
    /// More peaks are called inactive than there are, when a root is computed.
    #[error("inactive peak count {requested} exceeds peak count {peaks}")]
    InvalidInactivePeaks {
        /// The number of inactive peaks that the caller asked for.
        requested: usize,
        /// The number of peaks.
        peaks: usize,
    },
    /// The computed root differs from the given one.
    #[error("root mismatch")]
    RootMismatch,
    /// A batch needs the node at the position to be merkleized, and neither the kept records nor
    /// the base hold it.
    #[error("missing node: {0}")]
    MissingNode(Position<F>),
    /// Stored data are inconsistent. Not returned by these crates: reserved for layers that persist
    /// structures.
    #[error("data corrupted: {0}")]
    DataCorrupted(&'static str),
    /// The offset of a bit is at or past the number of bits. Not returned by these crates: reserved
    /// for layers that graft bitmaps.
    #[error("bit offset {0} out of bounds (size: {1})")]
    BitOutOfBounds(u64, u64),
    /// A memory request was refused.
    #[error("out of memory")]
    OutOfMemory,
}

impl<F> From<AllocError> for Error<F> {
    ghost use Rattle.std.specs.Prelude.{◌≡◌};
    ghost use Rattle.merkle_base.specs.declared.error.Error.TheVariants.{OutOfMemory};

    ghost from_gives = { λ _ e. e ≡ OutOfMemory };

    fn from(_error: AllocError) -> Self {
        Error::OutOfMemory
    }
}

impl<F, T: Drop> From<AllocFailed<T>> for Error<F> {
    ghost use Rattle.std.specs.Prelude.{◌≡◌};
    ghost use Rattle.merkle_base.specs.declared.error.Error.TheVariants.{OutOfMemory};

    ghost from_gives = { λ _ e. e ≡ OutOfMemory };

    fn from(_error: AllocFailed<T>) -> Self {
        Error::OutOfMemory
    }
}

/// Why a proof and its elements lead to no root.
#[derive(Debug, Drop, Error)]
pub enum ReconstructionError {
    /// There are no elements, and the proof calls peaks inactive.
    #[error("invalid proof")]
    InvalidProof,
    /// There are elements, and the proof has fewer digests than their range needs.
    #[error("missing digests in proof")]
    MissingDigests,
    /// The proof has more digests than the range needs; without elements, it has any.
    #[error("extra digests in proof")]
    ExtraDigests,
    /// There are elements, and the start is not below
    /// [`MAX_LEAVES`](crate::family::Family::MAX_LEAVES).
    #[error("start location is out of bounds")]
    InvalidStartLoc,
    /// There are elements, and the location after the last one exceeds
    /// [`MAX_LEAVES`](crate::family::Family::MAX_LEAVES) or the leaf count of the proof.
    #[error("end location is out of bounds")]
    InvalidEndLoc,
    /// There are no elements, and the start or the leaf count of the proof is not 0.
    #[error("missing elements")]
    MissingElements,
    /// There are elements, and the leaf count of the proof exceeds
    /// [`MAX_LEAVES`](crate::family::Family::MAX_LEAVES), or its number of inactive peaks exceeds
    /// the number of peaks.
    #[error("invalid size")]
    InvalidSize,
    /// A memory request was refused.
    #[error("out of memory")]
    OutOfMemory,
}

/// Why bytes could not be decoded.
#[derive(Debug, Drop, Error)]
pub enum DecodeError {
    /// The bytes end before the value does.
    #[error("end of buffer")]
    EndOfBuffer,
    /// A number is not in its shortest form (its last byte is `00` and not its only one), or it
    /// does not fit 64 bits (a tenth byte is not `01`).
    #[error("invalid varint")]
    InvalidVarint,
    /// A number exceeds the limit of its type, the first byte of an option is neither `00` nor
    /// `01`, the bytes of a digest are not those of any, or a digest is given for a pending chunk
    /// of a family that has none.
    #[error("invalid value")]
    Invalid,
    /// The number of digests exceeds the limit that the caller gave.
    #[error("too many items")]
    TooMany,
    /// A memory request was refused.
    #[error("out of memory")]
    OutOfMemory,
}

/// A memory request was refused: the error of calls that can fail in no other way.
#[derive(Debug, Drop, Error)]
#[error("out of memory")]
pub struct OutOfMemory;

impl From<AllocError> for OutOfMemory {
    fn from(_: AllocError) -> Self {
        OutOfMemory
    }
}
