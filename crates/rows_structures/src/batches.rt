//! Calls of batches.

use crate::drafts::{keep_draft, keep_granted, take_draft};
use crate::leaves::add;
use merkle_core::batch::MerkleizedBatch;
use merkle_core::family::{Family, Work};
use merkle_core::hasher::Hasher;
use merkle_core::mem::Mem;
use rows_calls::refusal::{granted, refused};
use rows_calls::world::World;
use rows_text::answer::Answer;
use rows_text::refusal::{Refusal, UNKNOWN};
use rows_text::words::{Words, give_name, named};

/// A draft that is forked from a structure.
pub fn fork<F: Family, H: Hasher<F> + Drop>(
    world: &mut World<F, H>,
    name: &str,
    structure: &str,
) -> Result<(), Refusal> {
    let draft = named(&world.structures, structure)?.new_batch();
    keep_granted(world, name, draft)
}

/// A draft that is forked from a batch.
pub fn child<F: Family, H: Hasher<F> + Drop>(
    world: &mut World<F, H>,
    name: &str,
    batch: &str,
) -> Result<(), Refusal> {
    let draft = named(&world.batches, batch)?.new_batch();
    keep_granted(world, name, draft)
}

/// A batch without changes to a structure.
pub fn from_mem<F: Family, H: Hasher<F> + Drop>(
    world: &mut World<F, H>,
    name: &str,
    structure: &str,
) -> Result<(), Refusal> {
    let structure = named(&world.structures, structure)?;
    let batch = granted(MerkleizedBatch::from_mem(structure))?;
    give_name(world.alloc, &mut world.batches, name, batch)
}

/// Makes a batch of the draft of that name, over a structure.
pub fn merkleize<F: Family, H: Hasher<F> + Drop>(
    world: &mut World<F, H>,
    name: &str,
    base: &str,
) -> Result<(), Refusal> {
    let draft = take_draft(world, name)?;
    let Some(base) = world.structures.get(base) else {
        return Err(UNKNOWN);
    };
    let batch = granted(draft.merkleize(base, &world.hasher))?;
    give_name(world.alloc, &mut world.batches, name, batch)
}

/// The same by the call that counts, and how many node digests it computed.
pub fn merkleize_counted<F: Family, H: Hasher<F> + Drop>(
    world: &mut World<F, H>,
    name: &str,
    base: &str,
    answer: &mut Answer,
) -> Result<(), Refusal> {
    let draft = take_draft(world, name)?;
    let Some(base) = world.structures.get(base) else {
        return Err(UNKNOWN);
    };
    let mut work = Work::new();
    let batch = granted(draft.merkleize_counted(base, &world.hasher, &mut work))?;
    answer.number(work.node_digests());
    give_name(world.alloc, &mut world.batches, name, batch)
}

/// Applies a batch to a structure.
pub fn apply<F: Family, H: Hasher<F> + Drop>(
    world: &mut World<F, H>,
    name: &str,
    structure: &str,
) -> Result<(), Refusal> {
    let batch = named(&world.batches, name)?;
    let Some(structure) = world.structures.get_mut(structure) else {
        return Err(UNKNOWN);
    };
    match structure.apply_batch(batch) {
        Ok(()) => Ok(()),
        Err(error) => Err(refused(&error)),
    }
}

/// What a batch records of the structure that its chain began with.
pub fn base<F: Family, H: Hasher<F> + Drop>(
    world: &World<F, H>,
    name: &str,
    answer: &mut Answer,
) -> Result<(), Refusal> {
    let batch = named(&world.batches, name)?;
    answer.text("size ");
    answer.number(batch.base_size().as_u64());
    answer.text(" boundary ");
    answer.number(batch.pruning_boundary().as_u64());
    Ok(())
}

/// The leaf count of a draft.
pub fn pending<F: Family, H: Hasher<F> + Drop>(
    world: &World<F, H>,
    name: &str,
    answer: &mut Answer,
) -> Result<(), Refusal> {
    let draft = named(&world.drafts, name)?;
    answer.number(draft.leaves().as_u64());
    Ok(())
}

/// Drops records of ancestors of a draft.
pub fn forget<F: Family, H: Hasher<F> + Drop>(
    world: &mut World<F, H>,
    name: &str,
    words: &mut Words,
) -> Result<(), Refusal> {
    let ancestors = words.count();
    words.end()?;
    let draft = take_draft(world, name)?.forget_ancestors(ancestors);
    keep_draft(world, name, draft)
}

/// A structure with these leaves, which a batch of that name adds to an empty one.
pub fn build<F: Family, H: Hasher<F> + Drop>(
    world: &mut World<F, H>,
    name: &str,
    words: &mut Words,
) -> Result<(), Refusal> {
    give_name(
        world.alloc,
        &mut world.structures,
        name,
        Mem::new(world.alloc),
    )?;
    fork(world, name, name)?;
    add(world, name, words)?;
    merkleize(world, name, name)?;
    apply(world, name, name)
}
