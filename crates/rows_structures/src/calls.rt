//! Which function answers a call.

use crate::{batches, leaves, nodes, structures};
use merkle_core::family::Family;
use merkle_core::hasher::Hasher;
use rows_calls::world::World;
use rows_text::answer::Answer;
use rows_text::calls::{BatchCall, LeafCall, NodeCall, StructureCall};
use rows_text::refusal::Refusal;
use rows_text::words::Words;

/// Does what a call of structures says, and writes the answer. The words are those after the name of the call.
pub fn answer_structure<F: Family, H: Hasher<F> + Drop>(
    world: &mut World<F, H>,
    call: StructureCall,
    words: &mut Words,
    answer: &mut Answer,
) -> Result<(), Refusal> {
    let name = words.word();
    match call {
        StructureCall::Bounds => structures::bounds(world, name, answer),
        StructureCall::Components => structures::components(world, name, answer),
        StructureCall::Copy => structures::copy(world, name, words.word()),
        StructureCall::Empty => structures::empty(world, name),
        StructureCall::FirstDamaged => structures::first_damaged(world, name, answer),
        StructureCall::FromComponents => structures::from_components(world, name, words),
        StructureCall::Parts => structures::parts(world, name, words),
        StructureCall::Peaks => structures::peaks(world, name, answer),
        StructureCall::Prune => structures::prune(world, name, words),
        StructureCall::PruneAll => structures::prune_all(world, name),
        StructureCall::Restore => structures::restore(world, name, words),
        StructureCall::Same => structures::same(world, name, words.word(), answer),
        StructureCall::WriteMem => structures::write_mem(world, name, answer),
    }
}

/// The same for a call of nodes and roots.
pub fn answer_node<F: Family, H: Hasher<F> + Drop>(
    world: &World<F, H>,
    call: NodeCall,
    words: &mut Words,
    answer: &mut Answer,
) -> Result<(), Refusal> {
    let name = words.word();
    match call {
        NodeCall::HeldLeaves => nodes::held_leaves(world, name, answer),
        NodeCall::Leaves => nodes::leaves(world, name, answer),
        NodeCall::Node => nodes::node(world, name, words, answer),
        NodeCall::Nodes => nodes::nodes(world, name, answer),
        NodeCall::Root => nodes::root(world, name, words, answer),
        NodeCall::SameRoots => nodes::same_roots(world, name, words.word(), answer),
        NodeCall::Size => nodes::size(world, name, answer),
    }
}

/// The same for a call of batches.
pub fn answer_batch<F: Family, H: Hasher<F> + Drop>(
    world: &mut World<F, H>,
    call: BatchCall,
    words: &mut Words,
    answer: &mut Answer,
) -> Result<(), Refusal> {
    let name = words.word();
    match call {
        BatchCall::Apply => batches::apply(world, name, words.word()),
        BatchCall::Base => batches::base(world, name, answer),
        BatchCall::Build => batches::build(world, name, words),
        BatchCall::Child => batches::child(world, name, words.word()),
        BatchCall::Forget => batches::forget(world, name, words),
        BatchCall::Fork => batches::fork(world, name, words.word()),
        BatchCall::FromMem => batches::from_mem(world, name, words.word()),
        BatchCall::Merkleize => batches::merkleize(world, name, words.word()),
        BatchCall::MerkleizeCounted => {
            batches::merkleize_counted(world, name, words.word(), answer)
        }
        BatchCall::Pending => batches::pending(world, name, answer),
    }
}

/// The same for a call of leaves.
pub fn answer_leaf<F: Family, H: Hasher<F> + Drop>(
    world: &mut World<F, H>,
    call: LeafCall,
    words: &mut Words,
) -> Result<(), Refusal> {
    let name = words.word();
    match call {
        LeafCall::Add => leaves::add(world, name, words),
        LeafCall::AddAll => leaves::add_all(world, name, words),
        LeafCall::AddDigest => leaves::add_digest(world, name, words),
        LeafCall::AddDigests => leaves::add_digests(world, name, words),
        LeafCall::AddList => leaves::add_list(world, name, words),
        LeafCall::AddNumbers => leaves::add_numbers(world, name, words),
        LeafCall::Update => leaves::update(world, name, words),
        LeafCall::UpdateDigest => leaves::update_digest(world, name, words),
        LeafCall::UpdateDigests => leaves::update_digests(world, name, words),
        LeafCall::UpdateList => leaves::update_list(world, name, words),
    }
}
