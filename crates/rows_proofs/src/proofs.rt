//! Calls of proofs of structures and batches.

use merkle_core::family::Family;
use merkle_core::hasher::Hasher;
use merkle_core::location::Location;
use rows_calls::values;
use rows_calls::world::World;
use rows_calls::writing::write_granted_proof;
use rows_text::answer::Answer;
use rows_text::refusal::Refusal;
use rows_text::words::{Words, named};

/// The proof of a leaf of a structure.
pub fn proof<F: Family, H: Hasher<F> + Drop>(
    world: &World<F, H>,
    words: &mut Words,
    answer: &mut Answer,
) -> Result<(), Refusal> {
    let structure = named(&world.structures, words.word())?;
    let leaf = Location::new(words.number());
    let inactive = words.count();
    words.end()?;
    write_granted_proof(answer, structure.proof(&world.hasher, leaf, inactive))
}

/// The proof of a range of a structure.
pub fn range<F: Family, H: Hasher<F> + Drop>(
    world: &World<F, H>,
    words: &mut Words,
    answer: &mut Answer,
) -> Result<(), Refusal> {
    let structure = named(&world.structures, words.word())?;
    let range = values::range(words);
    let inactive = words.count();
    words.end()?;
    write_granted_proof(
        answer,
        structure.range_proof(&world.hasher, range, inactive),
    )
}

/// The proof of a leaf of a batch, over a structure.
pub fn proof_over<F: Family, H: Hasher<F> + Drop>(
    world: &World<F, H>,
    words: &mut Words,
    answer: &mut Answer,
) -> Result<(), Refusal> {
    let batch = named(&world.batches, words.word())?;
    let base = named(&world.structures, words.word())?;
    let leaf = Location::new(words.number());
    let inactive = words.count();
    words.end()?;
    write_granted_proof(answer, batch.proof(base, &world.hasher, leaf, inactive))
}

/// The proof of a range of a batch, over a structure.
pub fn range_over<F: Family, H: Hasher<F> + Drop>(
    world: &World<F, H>,
    words: &mut Words,
    answer: &mut Answer,
) -> Result<(), Refusal> {
    let batch = named(&world.batches, words.word())?;
    let base = named(&world.structures, words.word())?;
    let range = values::range(words);
    let inactive = words.count();
    words.end()?;
    write_granted_proof(
        answer,
        batch.range_proof(base, &world.hasher, range, inactive),
    )
}
