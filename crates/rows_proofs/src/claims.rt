//! Calls that prove one leaf of a structure, or leaves anywhere in it.

use crate::ranges::proves_leaf;
use crate::scattered::scattered_proof;
use crate::subsets::subsets_proved;
use merkle_core::family::Family;
use merkle_core::hasher::Hasher;
use merkle_core::location::Location;
use rows_calls::values::locations;
use rows_calls::world::World;
use rows_calls::writing::{write_accepted, write_proof, write_proved};
use rows_text::answer::Answer;
use rows_text::refusal::Refusal;
use rows_text::words::{Words, named};

/// Whether a leaf is proved for a number of inactive peaks.
pub fn prove<F: Family, H: Hasher<F> + Drop>(
    world: &World<F, H>,
    words: &mut Words,
    answer: &mut Answer,
) -> Result<(), Refusal> {
    let structure = named(&world.structures, words.word())?;
    let leaf = Location::new(words.number());
    let element = words.bytes();
    let inactive = words.count();
    words.end()?;
    let hasher = &world.hasher;
    let proved = proves_leaf(world.alloc, hasher, structure, leaf, &element, inactive);
    write_accepted(answer, proved)
}

/// Proves each choice of a limited number of leaves for each number of inactive peaks, and counts the proofs.
pub fn prove_subsets<F: Family, H: Hasher<F> + Drop>(
    world: &World<F, H>,
    words: &mut Words,
    answer: &mut Answer,
) -> Result<(), Refusal> {
    let structure = named(&world.structures, words.word())?;
    let list = words.elements();
    let most = words.number();
    words.end()?;
    write_proved(
        answer,
        subsets_proved(world.alloc, &world.hasher, structure, &list, most),
    );
    Ok(())
}

/// The proof of leaves anywhere in a structure.
pub fn multi<F: Family, H: Hasher<F> + Drop>(
    world: &World<F, H>,
    words: &mut Words,
    answer: &mut Answer,
) -> Result<(), Refusal> {
    let structure = named(&world.structures, words.word())?;
    let list = locations(words);
    let inactive = words.count();
    words.end()?;
    let proof = scattered_proof(world.alloc, structure, &list, inactive)?;
    write_proof(answer, &proof);
    Ok(())
}
