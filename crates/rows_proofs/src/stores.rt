//! Calls of stores of proofs.

use merkle_core::family::Family;
use merkle_core::hasher::Hasher;
use merkle_core::position::Position;
use rows_calls::proofs::new_store;
use rows_calls::values::{locations, pairs, range};
use rows_calls::world::World;
use rows_calls::writing::{write_granted_proof, write_node, write_positions};
use rows_text::answer::Answer;
use rows_text::refusal::Refusal;
use rows_text::words::{Words, give_name, named};

/// The store of a proof that is accepted with its elements.
pub fn store<F: Family, H: Hasher<F> + Drop>(
    world: &mut World<F, H>,
    words: &mut Words,
) -> Result<(), Refusal> {
    let name = words.word();
    let store = new_store(&world.hasher, words)?;
    give_name(world.alloc, &mut world.stores, name, store)
}

/// The digest that a store has at a position.
pub fn store_node<F: Family, H: Hasher<F> + Drop>(
    world: &World<F, H>,
    words: &mut Words,
    answer: &mut Answer,
) -> Result<(), Refusal> {
    let store = named(&world.stores, words.word())?;
    let position = Position::new(words.number());
    words.end()?;
    write_node(answer, store.get_node(position));
    Ok(())
}

/// A store's proof of a range.
pub fn store_range<F: Family, H: Hasher<F> + Drop>(
    world: &World<F, H>,
    words: &mut Words,
    answer: &mut Answer,
) -> Result<(), Refusal> {
    let store = named(&world.stores, words.word())?;
    let range = range(words);
    words.end()?;
    write_granted_proof(answer, store.range_proof(&world.hasher, range))
}

/// A store's proof of leaves anywhere, with digests of peaks that are given.
pub fn store_multi<F: Family, H: Hasher<F> + Drop>(
    world: &World<F, H>,
    words: &mut Words,
    answer: &mut Answer,
) -> Result<(), Refusal> {
    let store = named(&world.stores, words.word())?;
    let list = locations(words);
    let given = pairs(words);
    words.end()?;
    write_granted_proof(answer, store.multi_proof(&list, &given))
}

/// The positions of the peaks that are folded in the suffix of a store's proof.
pub fn suffix_peaks<F: Family, H: Hasher<F> + Drop>(
    world: &World<F, H>,
    words: &mut Words,
    answer: &mut Answer,
) -> Result<(), Refusal> {
    let store = named(&world.stores, words.word())?;
    write_positions(answer, store.suffix_peak_positions());
    Ok(())
}
