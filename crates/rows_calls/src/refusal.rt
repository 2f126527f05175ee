//! What is written for the errors of structures.

use merkle_core::error::{Error, ReconstructionError};
use merkle_core::family::Family;
use merkle_core::restore::RestoreError;
use rows_text::refusal::{OUT_OF_MEMORY, Refusal};

/// What is written for an error of a structure.
pub fn refused<F: Family>(error: &Error<F>) -> Refusal {
    match error {
        Error::NonLeaf(position) => Refusal::Of("NonLeaf", position.as_u64()),
        Error::PositionOverflow(position) => Refusal::Of("PositionOverflow", position.as_u64()),
        Error::LocationOverflow(location) => Refusal::Of("LocationOverflow", location.as_u64()),
        Error::DuplicateLocation(location) => {
            Refusal::Of("DuplicateLocation", location.as_u64())
        }
        Error::UnsortedLocation(location) => Refusal::Of("UnsortedLocation", location.as_u64()),
        Error::Empty => Refusal::Plain("Empty"),
        Error::RangeOutOfBounds(location) => Refusal::Of("RangeOutOfBounds", location.as_u64()),
        Error::InvalidSize(size) => Refusal::Of("InvalidSize", *size),
        Error::LeafOutOfBounds(location) => Refusal::Of("LeafOutOfBounds", location.as_u64()),
        Error::ElementPruned(position) => Refusal::Of("ElementPruned", position.as_u64()),
        Error::CompressedDigest(position) => Refusal::Of("CompressedDigest", position.as_u64()),
        Error::InvalidPinnedNodes => Refusal::Plain("InvalidPinnedNodes"),
        Error::StaleBatch { expected, actual } => Refusal::Sizes {
            name: "StaleBatch",
            expected: expected.as_u64(),
            actual: actual.as_u64(),
        },
        Error::AncestorDropped { expected, actual } => Refusal::Sizes {
            name: "AncestorDropped",
            expected: expected.as_u64(),
            actual: actual.as_u64(),
        },
        Error::InvalidProof => Refusal::Plain("InvalidProof"),
        Error::InvalidInactivePeaks { requested, peaks } => Refusal::InactivePeaks {
            requested: *requested,
            peaks: *peaks,
        },
        Error::RootMismatch => Refusal::Plain("RootMismatch"),
        Error::MissingNode(position) => Refusal::Of("MissingNode", position.as_u64()),
        Error::OutOfMemory => OUT_OF_MEMORY,
        _ => Refusal::Plain("other"),
    }
}

/// What is written for components of which no structure is restored.
pub fn unrestored<F: Family>(error: &RestoreError<F>) -> Refusal {
    match error {
        RestoreError::LocationOverflow(location) => {
            Refusal::Of("LocationOverflow", location.as_u64())
        }
        RestoreError::InvalidSize(size) => Refusal::Of("InvalidSize", *size),
        RestoreError::InvalidPinnedNodes => Refusal::Plain("InvalidPinnedNodes"),
        RestoreError::InvalidInactivePeaks { requested, peaks } => Refusal::InactivePeaks {
            requested: *requested,
            peaks: *peaks,
        },
        RestoreError::DamagedNode(position) => Refusal::Of("DamagedNode", position.as_u64()),
        RestoreError::RootMismatch => Refusal::Plain("RootMismatch"),
        RestoreError::OutOfMemory => OUT_OF_MEMORY,
    }
}

/// What is written for a proof that leads to no root.
pub fn unreconstructed(error: &ReconstructionError) -> Refusal {
    match error {
        ReconstructionError::InvalidProof => Refusal::Plain("InvalidProof"),
        ReconstructionError::MissingDigests => Refusal::Plain("MissingDigests"),
        ReconstructionError::ExtraDigests => Refusal::Plain("ExtraDigests"),
        ReconstructionError::InvalidStartLoc => Refusal::Plain("InvalidStartLoc"),
        ReconstructionError::InvalidEndLoc => Refusal::Plain("InvalidEndLoc"),
        ReconstructionError::MissingElements => Refusal::Plain("MissingElements"),
        ReconstructionError::InvalidSize => Refusal::Plain("InvalidSize"),
        ReconstructionError::OutOfMemory => OUT_OF_MEMORY,
    }
}

/// The value that a call answers, or else what is written for its error.
pub fn granted<F: Family, T: Drop>(answer: Result<T, Error<F>>) -> Result<T, Refusal> {
    match answer {
        Ok(value) => Ok(value),
        Err(error) => Err(refused(&error)),
    }
}
