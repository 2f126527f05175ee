//! A transparency log answers each submission: a batch of one leaf, and the root after it.

use crate::input::Source;
use crate::journal::Journal;
use crate::tally::{Halt, Tally};
use merkle_core::batch::MerkleizedBatch;
use merkle_core::digest::{Digest, Sha256Digest};
use merkle_core::family::{Bagging, Family};
use std::alloc::Global;
use std::rc::Rc;

/// How many batches are stacked before the last one is applied.
const STACKED: u64 = 8;

/// That many submissions each by a batch that is applied at once, and as many by batches that are stacked.
pub fn run<F: Family>(
    alloc: Global,
    source: &mut Source,
    leaves: u64,
    tally: &mut Tally,
) -> Result<(), Halt> {
    one_by_one::<F>(alloc, source, leaves, tally)?;
    stacked::<F>(alloc, source, leaves, tally)
}

// Answers each submission by a batch of its own, which is applied at once.
fn one_by_one<F: Family>(
    alloc: Global,
    source: &mut Source,
    leaves: u64,
    tally: &mut Tally,
) -> Result<(), Halt> {
    let mut log: Journal<F> = Journal::new(alloc, Bagging::ForwardFold);
    let mut entry = Vec::new(alloc);
    for _ in 0..leaves {
        entry.clear();
        source.append(&mut entry)?;
        let batch = granted!(log.structure.new_batch());
        let batch = granted!(batch.add(&log.hasher, &entry));
        log.commit(batch)?;
        log.keep_root(0, tally)?;
    }
    Ok(())
}

// Answers each submission by a batch over the one before; each eighth is applied.
fn stacked<F: Family>(
    alloc: Global,
    source: &mut Source,
    leaves: u64,
    tally: &mut Tally,
) -> Result<(), Halt> {
    let mut log: Journal<F> = Journal::new(alloc, Bagging::BackwardFold);
    for _ in 0..leaves / STACKED {
        let tip = stack(&log, source, tally)?;
        granted!(log.structure.apply_batch(&tip));
    }
    tally.keep_number(log.leaves());
    log.keep_root(0, tally)
}

// Stacks batches of one leaf over the log, takes in the root after each, and returns the last.
fn stack<F: Family>(
    log: &Journal<F>,
    source: &mut Source,
    tally: &mut Tally,
) -> Result<Rc<MerkleizedBatch<F, Sha256Digest>>, Halt> {
    let mut entry = Vec::new(log.alloc);
    let mut tip = granted!(MerkleizedBatch::from_mem(&log.structure));
    for _ in 0..STACKED {
        entry.clear();
        source.append(&mut entry)?;
        let batch = granted!(tip.new_batch());
        let batch = granted!(batch.add(&log.hasher, &entry));
        tip = granted!(batch.merkleize(&log.structure, &log.hasher));
        let root = granted!(tip.root(&log.hasher, 0));
        tally.keep(root.as_bytes());
    }
    Ok(tip)
}
