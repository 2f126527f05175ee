//! Which function answers a call.

use crate::every::count_proved;
use crate::{claims, proofs, readers, stores};
use merkle_core::family::Family;
use merkle_core::hasher::Hasher;
use rows_calls::world::World;
use rows_calls::writing::write_proved;
use rows_text::answer::Answer;
use rows_text::calls::{ClaimCall, EveryCall, ProofCall, StoreCall};
use rows_text::refusal::Refusal;
use rows_text::words::{Words, named};

/// Does what a call of proofs says, and writes the answer. The words are those after the name of the call.
pub fn answer<F: Family, H: Hasher<F> + Drop>(
    world: &World<F, H>,
    call: ProofCall,
    words: &mut Words,
    answer: &mut Answer,
) -> Result<(), Refusal> {
    match call {
        ProofCall::Proof => proofs::proof(world, words, answer),
        ProofCall::ProofOver => proofs::proof_over(world, words, answer),
        ProofCall::Range => proofs::range(world, words, answer),
        ProofCall::RangeOver => proofs::range_over(world, words, answer),
    }
}

/// The same for a call of what holds nodes, or of stores.
pub fn answer_store<F: Family, H: Hasher<F> + Drop>(
    world: &mut World<F, H>,
    call: StoreCall,
    words: &mut Words,
    answer: &mut Answer,
) -> Result<(), Refusal> {
    match call {
        StoreCall::ReadHistory => readers::read_history(world, words, answer),
        StoreCall::ReadMulti => readers::read_multi(world, words, answer),
        StoreCall::ReadRange => readers::read_range(world, words, answer),
        StoreCall::ReadRoot => readers::read_root(world, words, answer),
        StoreCall::Store => stores::store(world, words),
        StoreCall::StoreMulti => stores::store_multi(world, words, answer),
        StoreCall::StoreNode => stores::store_node(world, words, answer),
        StoreCall::StoreRange => stores::store_range(world, words, answer),
        StoreCall::SuffixPeaks => stores::suffix_peaks(world, words, answer),
    }
}

/// The same for a call that proves every leaf or range of a structure for each number of inactive peaks, and counts the proofs.
pub fn answer_every<F: Family, H: Hasher<F> + Drop>(
    world: &World<F, H>,
    call: EveryCall,
    words: &mut Words,
    answer: &mut Answer,
) -> Result<(), Refusal> {
    let structure = named(&world.structures, words.word())?;
    let list = words.elements();
    let elements = words.slices(&list);
    words.end()?;
    let proved = count_proved(world.alloc, &world.hasher, structure, &elements, call)?;
    write_proved(answer, proved);
    Ok(())
}

/// The same for a call of one leaf of a structure, or of leaves anywhere in it.
pub fn answer_claim<F: Family, H: Hasher<F> + Drop>(
    world: &World<F, H>,
    call: ClaimCall,
    words: &mut Words,
    answer: &mut Answer,
) -> Result<(), Refusal> {
    match call {
        ClaimCall::Multi => claims::multi(world, words, answer),
        ClaimCall::Prove => claims::prove(world, words, answer),
        ClaimCall::ProveSubsets => claims::prove_subsets(world, words, answer),
    }
}
