//! A database commits blocks: updates and new leaves, over parents that are not applied yet.

use crate::input::Source;
use crate::journal::Journal;
use crate::tally::{Halt, Tally};
use merkle_core::batch::{MerkleizedBatch, UnmerkleizedBatch};
use merkle_core::digest::{Digest, Sha256Digest};
use merkle_core::family::{Bagging, Family};
use merkle_core::location::Location;
use std::alloc::Global;
use std::rc::Rc;

/// How many blocks are pending at most, where they stack deep.
const DEEP: u64 = 16;

/// The most new leaves of a block.
const NEW_LEAVES: u64 = 200;

/// How many leaves are updated in each block with the greatest chance.
const HOT: u64 = 64;

/// A block that others are stacked over.
type Block<F> = Rc<MerkleizedBatch<F, Sha256Digest>>;

/// A database, with the batch of its newest block, and of those that are pending, the oldest first.
#[derive(Drop)]
struct Database<F: Family> {
    journal: Journal<F>,
    newest: Block<F>,
    pending: Vec<Block<F>>,
}

impl<F: Family> Database<F> {
    // A batch over the newest block, which keeps the records of pending blocks alone.
    fn fork(&self) -> Result<UnmerkleizedBatch<F, Sha256Digest>, Halt> {
        let batch = granted!(self.newest.new_batch());
        let pending_before = self.pending.len().saturating_sub(1);
        let kept = self.newest.ancestors.len();
        Ok(batch.forget_ancestors(kept.saturating_sub(pending_before)))
    }

    // A location of the structure that is not pruned: one that is updated often, or any.
    fn next_leaf(&self, source: &mut Source) -> Location<F> {
        let bounds = self.journal.structure.bounds();
        let start = bounds.start.as_u64();
        let held = bounds.end.as_u64().saturating_sub(start);
        let half = start.saturating_add(held / 2);
        if source.below(4) == 0 {
            return Location::new(half.saturating_add(source.below(HOT.min(held / 2))));
        }
        Location::new(half.saturating_add(source.below(held / 2)))
    }

    // Updates that many leaves.
    fn with_updates(
        &self,
        source: &mut Source,
        count: u64,
        batch: UnmerkleizedBatch<F, Sha256Digest>,
    ) -> Result<UnmerkleizedBatch<F, Sha256Digest>, Halt> {
        let mut batch = batch;
        let mut value = Vec::new(self.journal.alloc);
        for _ in 0..count {
            value.clear();
            source.append(&mut value)?;
            let leaf = self.next_leaf(source);
            batch = granted!(batch.update_leaf(&self.journal.hasher, leaf, &value));
        }
        Ok(batch)
    }

    // The next block: updates of leaves, and new leaves. Its root is taken in.
    fn next_block(&self, source: &mut Source, tally: &mut Tally) -> Result<Block<F>, Halt> {
        let journal = &self.journal;
        let most = journal.leaves().min(1000);
        let count = source.below(most / 2).saturating_add(most / 2);
        let mut batch = self.with_updates(source, count, self.fork()?)?;
        let mut value = Vec::new(journal.alloc);
        for _ in 0..NEW_LEAVES {
            value.clear();
            source.append(&mut value)?;
            batch = granted!(batch.add(&journal.hasher, &value));
        }
        let block = granted!(batch.merkleize(&journal.structure, &journal.hasher));
        let root = granted!(block.root(&journal.hasher, 0));
        tally.keep(root.as_bytes());
        Ok(block)
    }

    // Commits a block.
    fn commit(&mut self, block: Block<F>) -> Result<(), Halt> {
        let Ok(shared) = block.clone() else {
            return Err(Halt::OutOfMemory);
        };
        self.newest = shared;
        if self.pending.push(block).is_err() {
            return Err(Halt::OutOfMemory);
        }
        Ok(())
    }

    // Applies the oldest pending block, prunes as many leaves as it added, and takes in the root.
    fn apply_oldest(&mut self, tally: &mut Tally) -> Result<(), Halt> {
        if self.pending.is_empty() {
            return Ok(());
        }
        let oldest = self.pending.remove(0);
        granted!(self.journal.structure.apply_batch(&oldest));
        let boundary = self.journal.structure.pruning_boundary().as_u64();
        let to = boundary.saturating_add(NEW_LEAVES);
        granted!(self.journal.structure.prune(Location::new(to)));
        self.journal.keep_root(0, tally)
    }

    // Commits blocks, each eighth after a fork that is thrown away, with that many pending at most.
    fn commit_blocks(
        &mut self,
        source: &mut Source,
        blocks: u64,
        depth: u64,
        tally: &mut Tally,
    ) -> Result<(), Halt> {
        for number in 0..blocks {
            if number % 8 == 7 {
                let _thrown_away = self.next_block(source, tally)?;
            }
            let block = self.next_block(source, tally)?;
            self.commit(block)?;
            if self.pending.len() as u64 >= depth {
                self.apply_oldest(tally)?;
            }
        }
        Ok(())
    }
}

/// Blocks over a structure of that many leaves: stacked deep, and then each applied at once.
pub fn run<F: Family>(
    alloc: Global,
    source: &mut Source,
    leaves: u64,
    tally: &mut Tally,
) -> Result<(), Halt> {
    let mut journal: Journal<F> = Journal::new(alloc, Bagging::BackwardFold);
    journal.append(&source.operations(alloc, leaves)?)?;
    let newest = granted!(MerkleizedBatch::from_mem(&journal.structure));
    let mut database = Database {
        journal,
        newest,
        pending: Vec::new(alloc),
    };
    let blocks = leaves / 1000 + 1;
    database.commit_blocks(source, blocks, DEEP, tally)?;
    for _ in 0..DEEP {
        database.apply_oldest(tally)?;
    }
    database.commit_blocks(source, blocks, 1, tally)
}
