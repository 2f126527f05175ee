//! Finding the state of a batch's chain that a structure is at.
ghost use Rattle.std.specs.Prelude.{◌≡◌, Option, map};
ghost use Rattle.merkle_batch_theory.specs.Records.{after};
ghost use Rattle.merkle_batch_theory.specs.Replay.{apply_error, last_match, matched, oldest, is_state};

use merkle_base::error::Error;
use merkle_base::family::Family;
use merkle_base::position::Position;
use merkle_batch::batch::MerkleizedBatch;
use merkle_digest::digest::Digest;
use merkle_draft::record::Record;
use std::rc::Rc;

// Whether two states have the same size and peak digests.
fn is_at<F: Family, D: Digest>(
    size: Position<F>,
    peaks: &[D],
    other: Position<F>,
    others: &[D],
) -> bool
    ensures { result ≡ is_state D.eq size peaks.now other others.now }
{
    size == other && peaks == others
}

// Returns the oldest record that the batch keeps, which is its own if it keeps no ancestors.
fn oldest_record<F: Family, D: Digest>(batch: &MerkleizedBatch<F, D>) -> &Record<F, D>
    ensures { result.now ≡ oldest batch.now }
{
    match batch.ancestors.first() {
        Some(record) => record,
        None => &batch.own,
    }
}

/// Returns how many of the kept ancestor records a structure of size `size` with these peak digests
/// already has; `None` if it is at no state from which the batch can be applied.
pub(crate) fn find_state<F: Family, D: Digest>(
    size: Position<F>,
    peaks: &[D],
    batch: &MerkleizedBatch<F, D>,
) -> Option<usize>
    ensures { result ≡ matched D.eq size peaks.now batch.now }
{
    let oldest = oldest_record(batch);
    if is_at(
        size,
        peaks,
        oldest.size_before,
        oldest.peaks_before.as_slice(),
    ) {
        return Some(0);
    }
    last_end(size, peaks, &batch.ancestors)
}

// Returns the index after the newest record that ends at this size with these peak digests.
fn last_end<F: Family, D: Digest>(
    size: Position<F>,
    peaks: &[D],
    records: &[Rc<Record<F, D>>],
) -> Option<usize>
    ensures { result ≡ last_match (λ r. is_state D.eq size peaks.now (after r) r.peaks_after) (map (λ r. r.value) records.now) }
{
    let mut i = records.len();
    while 0 < i {
        i -= 1;
        let record: &Record<F, D> = &records[i];
        if is_at(size, peaks, record.size(), record.peaks_after.as_slice()) {
            return Some(i + 1);
        }
    }
    None
}

/// Returns the error for a batch that matches no state of a structure of size `size`.
pub(crate) fn refusal<F: Family, D: Digest>(
    size: Position<F>,
    batch: &MerkleizedBatch<F, D>,
) -> Error<F>
    ensures { result ≡ apply_error size batch.now }
{
    if batch.base_size <= size && size < oldest_record(batch).size_before {
        return Error::AncestorDropped {
            expected: batch.size(),
            actual: size,
        };
    }
    Error::StaleBatch {
        expected: batch.base_size,
        actual: size,
    }
}
