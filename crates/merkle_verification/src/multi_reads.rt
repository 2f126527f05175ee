//! The digests of a proof of scattered leaves, read from a table and from given pairs.
ghost use Rattle.std.specs.Prelude.{◌≡◌, ◌≢◌, Some, map, reverse, IfOk, IfErr};
ghost use Rattle.merkle_verification.specs.StoreMulti.{IsUnknown, either_at, known_at, unknown_error};

use crate::pair_table::PairTable;
use merkle_base::error::Error;
use merkle_base::family::Family;
use merkle_base::position::Position;
use merkle_digest::digest::Digest;
use std::alloc::{AllocError, Global};

// Returns the pairs from the last one on.
fn reversed<F: Family, D: Digest>(
    alloc: Global,
    pairs: &[(Position<F>, D)],
) -> Result<Vec<(Position<F>, D)>, AllocError>
    ensures { IfOk result (λ v. v.items ≡ reverse pairs.now) }
{
    pairs.iter().rev().copied().collect(alloc)
}

// Returns the digest of the first table at `position`, or else that of the second.
fn either_digest<F: Family, D: Digest>(
    first: &PairTable<F, D>,
    second: &PairTable<F, D>,
    position: Position<F>,
) -> Option<D>
    ensures { result ≡ either_at first.now second.now position }
{
    match first.get(position) {
        Some(digest) => Some(digest),
        None => second.get(position),
    }
}

// Returns the error for an unknown digest: it is folded with those of other peaks, or the store
// never had it.
fn unknown_digest<F: Family>(suffix_peaks: &[Position<F>], position: Position<F>) -> Error<F>
    ensures { result ≡ unknown_error suffix_peaks.now position }
{
    if suffix_peaks.contains(&position) {
        Error::CompressedDigest(position)
    } else {
        Error::ElementPruned(position)
    }
}

// Returns the digests at the positions, each from the first table or else from the second.
fn read_either<F: Family, D: Digest>(
    first: &PairTable<F, D>,
    second: &PairTable<F, D>,
    suffix_peaks: &[Position<F>],
    positions: &[Position<F>],
) -> Result<Vec<D>, Error<F>>
    ensures ok { IfOk result (λ v. map Some v.items ≡ map (either_at first.now second.now) positions.now) }
    ensures err { IfErr result (λ e. e ≢ Error.OutOfMemory → IsUnknown (either_at first.now second.now) suffix_peaks.now positions.now e) }
{
    let mut digests = Vec::new(first.allocator());
    for position in positions {
        let Some(digest) = either_digest(first, second, *position) else {
            return Err(unknown_digest(suffix_peaks, *position));
        };
        digests.push(digest)?;
    }
    Ok(digests)
}

/// Returns the digests at the positions, each from `pairs` or else from `given`. If `given` has
/// several digests for a position, the last one is used.
pub(crate) fn read_known<F: Family, D: Digest>(
    pairs: &PairTable<F, D>,
    given: &[(Position<F>, D)],
    suffix_peaks: &[Position<F>],
    positions: &[Position<F>],
) -> Result<Vec<D>, Error<F>>
    ensures ok { IfOk result (λ v. map Some v.items ≡ map (known_at pairs.now given.now) positions.now) }
    ensures err { IfErr result (λ e. e ≢ Error.OutOfMemory → IsUnknown (known_at pairs.now given.now) suffix_peaks.now positions.now e) }
{
    let table = PairTable::new(reversed(pairs.allocator(), given)?)?;
    read_either(pairs, &table, suffix_peaks, positions)
}
