//! Records of batches: what each changed, and the states before and after it.
ghost use Rattle.std.specs.Prelude.{◌≡◌, ℕ, List, Option, map, not};
ghost use Rattle.merkle_batch_theory.specs.Unmerkleized.{is_changed};
ghost use Rattle.merkle_batch_theory.specs.Read.{newest, written};
ghost use Rattle.merkle_batch_theory.specs.Records.{after};

use crate::overwrites::Overwrites;
use merkle_base::family::Family;
use merkle_base::position::Position;
use merkle_digest::digest::Digest;
use std::marker::Model;
use std::rc::{Rc, RcSlice};

/// What a batch changed, and the states before and after it.
#[derive(Debug, Drop)]
pub struct Record<F: Family, D: Digest> {
    /// The size in nodes before the batch.
    pub size_before: Position<F>,
    /// The digests of the peaks before the batch, oldest first.
    pub peaks_before: RcSlice<D>,
    /// The digests of the nodes from `size_before` on.
    pub appended: Vec<D>,
    /// The new digests of dirty nodes before `size_before`.
    pub overwrites: Overwrites<F, D>,
    /// The digests of the peaks after the batch, oldest first.
    pub peaks_after: RcSlice<D>,
}

impl<F: Family, D: Digest> Model for Record<F, D> {
    ghost use Rattle.std.specs.Prelude.{◌+◌, ◌<◌, ◌^◌, length};
    ghost use Rattle.std.specs.Rc.{rc_slice_items};
    ghost use Rattle.merkle_batch_theory.specs.Records.{RecordModel, record_model_code};

    ghost Value = { RecordModel D };

    ghost coded = { record_model_code D.code };

    ghost view = { λ r. record {
      before = r.size_before;
      peaks_before = rc_slice_items r.peaks_before;
      appended = r.appended.items;
      overwritten = r.overwrites;
      peaks_after = rc_slice_items r.peaks_after;
    } };

    ghost invariant = { λ r. r.size_before + length r.appended.items < 2 ^ 63 };
}

impl<F: Family, D: Digest> Record<F, D> {
    /// Returns the size in nodes after the batch.
    pub fn size(&self) -> Position<F>
        ensures { result ≡ after self.now }
    {
        self.size_before + self.appended.len() as u64
    }

    /// Whether the batch changed nothing.
    pub fn is_empty(&self) -> bool
        ensures { result ≡ not (is_changed self.now) }
    {
        self.appended.is_empty() && self.overwrites.is_empty()
    }

    /// Returns the digest that the batch gave the node at `position`, if any.
    pub fn get_node(&self, position: Position<F>) -> Option<D>
        ensures { result ≡ written self.now position }
    {
        if position < self.size_before {
            self.overwrites.get(position)
        } else {
            self.appended
                .get((position - self.size_before).as_u64() as usize)
                .copied()
        }
    }
}

/// Returns the digest of the node at `position` from the newest record that has it. The records are
/// ordered, the oldest first.
pub fn newest_node<F: Family, D: Digest>(
    records: &[Rc<Record<F, D>>],
    position: Position<F>,
) -> Option<D>
    ensures { result ≡ newest (map (λ r. r.value) records.now) position }
{
    let mut i = records.len();
    while 0 < i {
        i -= 1;
        let found = records[i].get_node(position);
        if found.is_some() {
            return found;
        }
    }
    None
}
