//! Calls of proofs over structures and batches as what holds nodes.

use merkle_core::batch::MerkleizedBatch;
use merkle_core::family::Family;
use merkle_core::hasher::Hasher;
use rows_calls::readers::{history_over, multi_over, range_over, root_over};
use rows_calls::world::World;
use rows_text::answer::Answer;
use rows_text::refusal::Refusal;
use rows_text::words::{Words, named};

/// The proof of a range over a structure, or else over a shared batch.
pub fn read_range<F: Family, H: Hasher<F> + Drop>(
    world: &World<F, H>,
    words: &mut Words,
    answer: &mut Answer,
) -> Result<(), Refusal> {
    let name = words.word();
    if let Some(structure) = world.structures.get(name) {
        return range_over(&world.hasher, structure, words, answer);
    }
    let batch = named(&world.batches, name)?;
    range_over(&world.hasher, batch, words, answer)
}

/// The proof of a range of the first leaves, over a structure or over a batch.
pub fn read_history<F: Family, H: Hasher<F> + Drop>(
    world: &World<F, H>,
    words: &mut Words,
    answer: &mut Answer,
) -> Result<(), Refusal> {
    let name = words.word();
    if let Some(structure) = world.structures.get(name) {
        return history_over(&world.hasher, structure, words, answer);
    }
    let batch: &MerkleizedBatch<F, H::Digest> = named(&world.batches, name)?;
    history_over(&world.hasher, batch, words, answer)
}

/// The root of the first leaves, over a structure or over a batch.
pub fn read_root<F: Family, H: Hasher<F> + Drop>(
    world: &World<F, H>,
    words: &mut Words,
    answer: &mut Answer,
) -> Result<(), Refusal> {
    let name = words.word();
    if let Some(structure) = world.structures.get(name) {
        return root_over(&world.hasher, structure, words, answer);
    }
    let batch: &MerkleizedBatch<F, H::Digest> = named(&world.batches, name)?;
    root_over(&world.hasher, batch, words, answer)
}

/// The proof of leaves anywhere over a structure, or else over a shared batch.
pub fn read_multi<F: Family, H: Hasher<F> + Drop>(
    world: &World<F, H>,
    words: &mut Words,
    answer: &mut Answer,
) -> Result<(), Refusal> {
    let name = words.word();
    if let Some(structure) = world.structures.get(name) {
        return multi_over(structure, words, answer);
    }
    let batch = named(&world.batches, name)?;
    multi_over(batch, words, answer)
}
