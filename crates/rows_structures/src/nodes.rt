//! Calls of nodes and roots.

use merkle_core::digest::Digest;
use merkle_core::family::Family;
use merkle_core::hasher::Hasher;
use merkle_core::position::Position;
use rows_calls::MOST_PEAKS;
use rows_calls::refusal::granted;
use rows_calls::world::World;
use rows_calls::writing::{write_digests, write_node, write_nodes};
use rows_text::answer::Answer;
use rows_text::refusal::Refusal;
use rows_text::words::{Words, named};

/// The size in nodes of a structure or batch.
pub fn size<F: Family, H: Hasher<F> + Drop>(
    world: &World<F, H>,
    name: &str,
    answer: &mut Answer,
) -> Result<(), Refusal> {
    let size = match world.structures.get(name) {
        Some(structure) => structure.size(),
        None => named(&world.batches, name)?.size(),
    };
    answer.number(size.as_u64());
    Ok(())
}

/// The leaf count of a structure or batch.
pub fn leaves<F: Family, H: Hasher<F> + Drop>(
    world: &World<F, H>,
    name: &str,
    answer: &mut Answer,
) -> Result<(), Refusal> {
    let leaves = match world.structures.get(name) {
        Some(structure) => structure.leaves(),
        None => named(&world.batches, name)?.leaves(),
    };
    answer.number(leaves.as_u64());
    Ok(())
}

/// The digests of the leaves that a structure holds.
pub fn held_leaves<F: Family, H: Hasher<F> + Drop>(
    world: &World<F, H>,
    name: &str,
    answer: &mut Answer,
) -> Result<(), Refusal> {
    let structure = named(&world.structures, name)?;
    let digests: Vec<H::Digest> = structure.leaf_digests().collect(world.alloc)?;
    write_digests(answer, &digests);
    Ok(())
}

/// The node at a position of a structure or batch.
pub fn node<F: Family, H: Hasher<F> + Drop>(
    world: &World<F, H>,
    name: &str,
    words: &mut Words,
    answer: &mut Answer,
) -> Result<(), Refusal> {
    let position = Position::new(words.number());
    words.end()?;
    let node = match world.structures.get(name) {
        Some(structure) => structure.get_node(position),
        None => named(&world.batches, name)?.get_node(position),
    };
    write_node(answer, node);
    Ok(())
}

/// The nodes of a structure or batch, by position.
pub fn nodes<F: Family, H: Hasher<F> + Drop>(
    world: &World<F, H>,
    name: &str,
    answer: &mut Answer,
) -> Result<(), Refusal> {
    match world.structures.get(name) {
        Some(structure) => write_nodes(answer, structure),
        None => write_nodes(answer, named(&world.batches, name)?),
    }
    Ok(())
}

// The root of the structure, or else the batch, of that name.
fn root_of<F: Family, H: Hasher<F> + Drop>(
    world: &World<F, H>,
    name: &str,
    inactive: usize,
) -> Result<H::Digest, Refusal> {
    let root = match world.structures.get(name) {
        Some(structure) => structure.root(&world.hasher, inactive),
        None => named(&world.batches, name)?.root(&world.hasher, inactive),
    };
    granted(root)
}

/// The root of a structure or batch.
pub fn root<F: Family, H: Hasher<F> + Drop>(
    world: &World<F, H>,
    name: &str,
    words: &mut Words,
    answer: &mut Answer,
) -> Result<(), Refusal> {
    let inactive = words.count();
    words.end()?;
    let root = root_of(world, name, inactive)?;
    answer.bytes(root.as_bytes());
    Ok(())
}

// Whether two structures or batches have the same root, or the same refusal.
fn is_same_root<F: Family, H: Hasher<F> + Drop>(
    world: &World<F, H>,
    name: &str,
    other: &str,
    inactive: usize,
) -> bool {
    match (
        root_of(world, name, inactive),
        root_of(world, other, inactive),
    ) {
        (Ok(root), Ok(other)) => root == other,
        (Err(refusal), Err(other)) => refusal == other,
        _ => false,
    }
}

/// Whether two structures or batches have the same root, or the same refusal, for each number of inactive peaks.
pub fn same_roots<F: Family, H: Hasher<F> + Drop>(
    world: &World<F, H>,
    name: &str,
    other: &str,
    answer: &mut Answer,
) -> Result<(), Refusal> {
    let mut are_same = true;
    for inactive in 0..=MOST_PEAKS {
        are_same &= is_same_root(world, name, other, inactive);
    }
    answer.yes_or_no(are_same);
    Ok(())
}
