//! Calls that add and change leaves of batches.

use crate::drafts::{keep_draft, keep_granted, take_draft};
use merkle_core::batch::UnmerkleizedBatch;
use merkle_core::family::Family;
use merkle_core::hasher::Hasher;
use merkle_core::location::Location;
use rows_calls::refusal::granted;
use rows_calls::values::{digest, digests, updates};
use rows_calls::world::World;
use rows_text::refusal::Refusal;
use rows_text::words::{LocatedBytes, Words, named};
use std::alloc::Global;

// The draft with a leaf more for each of these elements.
fn with_elements<F: Family, H: Hasher<F>>(
    mut draft: UnmerkleizedBatch<F, H::Digest>,
    hasher: &H,
    elements: &[Vec<u8>],
) -> Result<UnmerkleizedBatch<F, H::Digest>, Refusal> {
    for element in elements {
        draft = granted(draft.add(hasher, element.as_slice()))?;
    }
    Ok(draft)
}

// The draft with `times` more leaves, of 32 bytes, of which the first 8 are the number of its location.
fn with_numbers<F: Family, H: Hasher<F>>(
    mut draft: UnmerkleizedBatch<F, H::Digest>,
    hasher: &H,
    times: usize,
) -> Result<UnmerkleizedBatch<F, H::Digest>, Refusal> {
    for _ in 0..times {
        let mut element = [0u8; 32];
        let location = draft.leaves().as_u64();
        element[..8].copy_from_slice(&location.to_be_bytes());
        draft = granted(draft.add(hasher, &element))?;
    }
    Ok(draft)
}

// The digest of the leaf at a location with that element.
fn leaf_digest<F: Family, H: Hasher<F>>(
    hasher: &H,
    leaf: Location<F>,
    element: &[u8],
) -> Result<H::Digest, Refusal> {
    if !leaf.is_valid() {
        return Err(Refusal::Of("LocationOverflow", leaf.as_u64()));
    }
    let position = F::location_to_position(leaf);
    Ok(hasher.leaf_digest(position, element))
}

// The digests of the leaves from a location on with these elements.
fn leaf_digests<F: Family, H: Hasher<F>>(
    alloc: Global,
    hasher: &H,
    first: Location<F>,
    elements: &[Vec<u8>],
) -> Result<Vec<H::Digest>, Refusal> {
    let mut leaves = Vec::new(alloc);
    let mut leaf = first;
    for element in elements {
        leaves.push(leaf_digest(hasher, leaf, element.as_slice())?)?;
        leaf = leaf.saturating_add(1);
    }
    Ok(leaves)
}

// Each location with the leaf digest of its element.
fn updates_to<F: Family, H: Hasher<F>>(
    alloc: Global,
    hasher: &H,
    list: &[LocatedBytes],
) -> Result<Vec<(Location<F>, H::Digest)>, Refusal> {
    let mut updates = Vec::new(alloc);
    for update in list {
        let leaf = Location::new(update.index);
        let to = leaf_digest(hasher, leaf, update.bytes.as_slice())?;
        updates.push((leaf, to))?;
    }
    Ok(updates)
}

// Adds leaves with these digests, all in one call.
fn add_leaves<F: Family, H: Hasher<F> + Drop>(
    world: &mut World<F, H>,
    name: &str,
    leaves: &[H::Digest],
) -> Result<(), Refusal> {
    let draft = take_draft(world, name)?;
    keep_granted(world, name, draft.add_leaf_digests(leaves))
}

// Updates leaves, all in one call.
fn update_all<F: Family, H: Hasher<F> + Drop>(
    world: &mut World<F, H>,
    name: &str,
    updates: &[(Location<F>, H::Digest)],
) -> Result<(), Refusal> {
    let draft = take_draft(world, name)?;
    keep_granted(world, name, draft.update_leaf_batched(updates))
}

/// Adds leaves with these elements, one after another.
pub fn add<F: Family, H: Hasher<F> + Drop>(
    world: &mut World<F, H>,
    name: &str,
    words: &mut Words,
) -> Result<(), Refusal> {
    let elements = words.elements();
    words.end()?;
    let draft = take_draft(world, name)?;
    let draft = with_elements(draft, &world.hasher, elements.as_slice())?;
    keep_draft(world, name, draft)
}

/// Adds leaves with these elements by the call that takes them all.
pub fn add_all<F: Family, H: Hasher<F> + Drop>(
    world: &mut World<F, H>,
    name: &str,
    words: &mut Words,
) -> Result<(), Refusal> {
    let elements = words.elements();
    let all = words.slices(&elements);
    words.end()?;
    let draft = take_draft(world, name)?.add_all(&world.hasher, &all);
    keep_granted(world, name, draft)
}

/// Adds leaves of 32 bytes, of which the first 8 are the number of its location, the highest byte first.
pub fn add_numbers<F: Family, H: Hasher<F> + Drop>(
    world: &mut World<F, H>,
    name: &str,
    words: &mut Words,
) -> Result<(), Refusal> {
    let times = words.count();
    words.end()?;
    let draft = take_draft(world, name)?;
    let draft = with_numbers(draft, &world.hasher, times)?;
    keep_draft(world, name, draft)
}

/// Adds a leaf with that digest.
pub fn add_digest<F: Family, H: Hasher<F> + Drop>(
    world: &mut World<F, H>,
    name: &str,
    words: &mut Words,
) -> Result<(), Refusal> {
    let leaf = digest(words);
    words.end()?;
    let draft = take_draft(world, name)?;
    keep_granted(world, name, draft.add_leaf_digest(leaf))
}

/// Adds leaves with these digests, all in one call.
pub fn add_digests<F: Family, H: Hasher<F> + Drop>(
    world: &mut World<F, H>,
    name: &str,
    words: &mut Words,
) -> Result<(), Refusal> {
    let leaves = digests(words);
    words.end()?;
    add_leaves(world, name, &leaves)
}

/// Adds leaves with these elements, all in one call.
pub fn add_list<F: Family, H: Hasher<F> + Drop>(
    world: &mut World<F, H>,
    name: &str,
    words: &mut Words,
) -> Result<(), Refusal> {
    let first = named(&world.drafts, name)?.leaves();
    let elements = words.elements();
    words.end()?;
    let leaves = leaf_digests(world.alloc, &world.hasher, first, &elements)?;
    add_leaves(world, name, &leaves)
}

/// Updates a leaf to an element.
pub fn update<F: Family, H: Hasher<F> + Drop>(
    world: &mut World<F, H>,
    name: &str,
    words: &mut Words,
) -> Result<(), Refusal> {
    let leaf = Location::new(words.number());
    let element = words.bytes();
    words.end()?;
    let draft = take_draft(world, name)?.update_leaf(&world.hasher, leaf, element.as_slice());
    keep_granted(world, name, draft)
}

/// Updates a leaf to a digest.
pub fn update_digest<F: Family, H: Hasher<F> + Drop>(
    world: &mut World<F, H>,
    name: &str,
    words: &mut Words,
) -> Result<(), Refusal> {
    let leaf = Location::new(words.number());
    let to = digest(words);
    words.end()?;
    let draft = take_draft(world, name)?;
    keep_granted(world, name, draft.update_leaf_digest(leaf, to))
}

/// Updates leaves to elements, all in one call.
pub fn update_list<F: Family, H: Hasher<F> + Drop>(
    world: &mut World<F, H>,
    name: &str,
    words: &mut Words,
) -> Result<(), Refusal> {
    let list = words.located();
    words.end()?;
    let updates = updates_to(world.alloc, &world.hasher, list.as_slice())?;
    update_all(world, name, &updates)
}

/// Updates leaves to digests, all in one call.
pub fn update_digests<F: Family, H: Hasher<F> + Drop>(
    world: &mut World<F, H>,
    name: &str,
    words: &mut Words,
) -> Result<(), Refusal> {
    let updates = updates(words);
    words.end()?;
    update_all(world, name, &updates)
}
