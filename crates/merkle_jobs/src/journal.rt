//! A journal is opened: its operations become leaves in batches of 1,000 to 10,000, and it has one root at the end.

use crate::input::{Operations, Source};
use crate::tally::{Halt, Tally};
use merkle_core::batch::UnmerkleizedBatch;
use merkle_core::digest::{Digest, Sha256Digest, Sha256Plain};
use merkle_core::family::{Bagging, Family};
use merkle_core::hasher::Standard;
use merkle_core::mem::Mem;
use std::alloc::Global;

/// A journal.
#[derive(Drop)]
pub struct Journal<F: Family> {
    pub alloc: Global,
    pub hasher: Standard<Sha256Plain>,
    pub structure: Mem<F, Sha256Digest>,
}

impl<F: Family> Journal<F> {
    /// A journal without operations, whose peaks are folded that way.
    pub fn new(alloc: Global, bagging: Bagging) -> Self {
        Journal {
            alloc,
            hasher: Standard::new(bagging),
            structure: Mem::new(alloc),
        }
    }

    // A batch of all these operations, one added after another.
    fn added_one_by_one(
        &self,
        operations: &Operations,
    ) -> Result<UnmerkleizedBatch<F, Sha256Digest>, Halt> {
        let mut batch = granted!(self.structure.new_batch());
        for index in 0..operations.count() {
            batch = granted!(batch.add(&self.hasher, operations.get(index)?));
        }
        Ok(batch)
    }

    // A batch of all these operations, added together.
    fn added_together(
        &self,
        operations: &Operations,
    ) -> Result<UnmerkleizedBatch<F, Sha256Digest>, Halt> {
        let views = operations.views(self.alloc, 0, operations.count())?;
        let batch = granted!(self.structure.new_batch());
        Ok(granted!(batch.add_all(&self.hasher, &views)))
    }

    /// Merkleizes a batch and applies it.
    pub fn commit(&mut self, batch: UnmerkleizedBatch<F, Sha256Digest>) -> Result<(), Halt> {
        let batch = granted!(batch.merkleize(&self.structure, &self.hasher));
        granted!(self.structure.apply_batch(&batch));
        Ok(())
    }

    /// Appends operations in one batch, added together.
    pub fn append(&mut self, operations: &Operations) -> Result<(), Halt> {
        let batch = self.added_together(operations)?;
        self.commit(batch)
    }

    /// Appends operations in one batch, added one by one.
    pub fn append_one_by_one(&mut self, operations: &Operations) -> Result<(), Halt> {
        let batch = self.added_one_by_one(operations)?;
        self.commit(batch)
    }

    /// The number of leaves.
    pub fn leaves(&self) -> u64 {
        self.structure.leaves().as_u64()
    }

    /// Takes in the root with that many inactive peaks.
    pub fn keep_root(&self, inactive: usize, tally: &mut Tally) -> Result<(), Halt> {
        let root = granted!(self.structure.root(&self.hasher, inactive));
        tally.keep(root.as_bytes());
        Ok(())
    }
}

/// Appends that many operations, in batches that are added one by one and together by turns, to a journal of each bagging.
pub fn run<F: Family>(
    alloc: Global,
    source: &mut Source,
    leaves: u64,
    tally: &mut Tally,
) -> Result<(), Halt> {
    open::<F>(alloc, source, leaves / 2, Bagging::ForwardFold, tally)?;
    open::<F>(
        alloc,
        source,
        leaves - leaves / 2,
        Bagging::BackwardFold,
        tally,
    )
}

// Appends that many operations, and takes in the root.
fn open<F: Family>(
    alloc: Global,
    source: &mut Source,
    leaves: u64,
    bagging: Bagging,
    tally: &mut Tally,
) -> Result<(), Halt> {
    let mut journal: Journal<F> = Journal::new(alloc, bagging);
    let mut left = leaves;
    for _ in 0..leaves {
        if left == 0 {
            break;
        }
        let count = source.below(9001).saturating_add(1000).min(left);
        let operations = source.operations(alloc, count)?;
        if left % 2 == 0 {
            journal.append(&operations)?;
        } else {
            journal.append_one_by_one(&operations)?;
        }
        left = left.saturating_sub(count.max(1));
    }
    tally.keep_number(journal.leaves());
    journal.keep_root(0, tally)
}
