//! Which crate answers a call, and of which family and hasher.

use crate::audits;
use merkle_core::family::Family;
use merkle_core::hasher::Hasher;
use rows_calls::calls;
use rows_calls::choices::{Familiar, Hashed};
use rows_calls::world::World;
use rows_proofs::calls as proof_calls;
use rows_structures::calls as structure_calls;
use rows_text::answer::Answer;
use rows_text::calls::Call;
use rows_text::refusal::{Refusal, SYNTAX};
use rows_text::words::Words;

// Does what a call says, and writes the answer. The words are those after the name of the call.
fn answer_world<F: Family, H: Hasher<F> + Drop>(
    world: &mut World<F, H>,
    call: Call,
    words: &[&str],
    answer: &mut Answer,
) -> Result<(), Refusal> {
    let mut words = Words::new(world.alloc, words);
    let words = &mut words;
    let answered = match call {
        Call::Family(call) => calls::answer_family::<F, H>(call, words, answer),
        Call::Plan(call) => calls::answer_plan::<F, H>(&world.hasher, call, words, answer),
        Call::Given(call) => calls::answer_given::<F, H>(&world.hasher, call, words, answer),
        Call::Bytes(call) => calls::answer_bytes::<F, H>(&world.hasher, call, words, answer),
        Call::Structure(call) => structure_calls::answer_structure(world, call, words, answer),
        Call::Node(call) => structure_calls::answer_node(world, call, words, answer),
        Call::Batch(call) => structure_calls::answer_batch(world, call, words, answer),
        Call::Leaf(call) => structure_calls::answer_leaf(world, call, words),
        Call::Proof(call) => proof_calls::answer(world, call, words, answer),
        Call::Store(call) => proof_calls::answer_store(world, call, words, answer),
        Call::Every(call) => proof_calls::answer_every(world, call, words, answer),
        Call::Claim(call) => proof_calls::answer_claim(world, call, words, answer),
        Call::Audit(_) => Err(SYNTAX),
    };
    answered?;
    answer.end()
}

// Audits are of the hash whose collisions are at hand.
fn answer_hashed<F: Family>(
    hashed: &mut Hashed<F>,
    call: Call,
    words: &[&str],
    answer: &mut Answer,
) -> Result<(), Refusal> {
    match hashed {
        Hashed::Sha256(world) => answer_world(world, call, words, answer),
        Hashed::Xor8(world) => match call {
            Call::Audit(call) => audits::answer::<F, _>(
                world.alloc,
                &world.hasher,
                call,
                words,
                answer,
            ),
            call => answer_world(world, call, words, answer),
        },
        Hashed::Keyed(world) => answer_world(world, call, words, answer),
    }
}

/// Does what a call says in one family and with one hasher, and writes the answer.
pub fn answer(
    familiar: &mut Familiar,
    call: Call,
    words: &[&str],
    answer: &mut Answer,
) -> Result<(), Refusal> {
    match familiar {
        Familiar::Mmr(hashed) => answer_hashed(hashed, call, words, answer),
        Familiar::Mmb(hashed) => answer_hashed(hashed, call, words, answer),
        Familiar::Flat(hashed) => answer_hashed(hashed, call, words, answer),
        Familiar::Pairs(hashed) => answer_hashed(hashed, call, words, answer),
    }
}
