//! Calls of structures.

use merkle_core::digest::Digest;
use merkle_core::family::Family;
use merkle_core::hasher::Hasher;
use merkle_core::location::Location;
use merkle_core::mem::Mem;
use merkle_core::position::Position;
use rows_calls::refusal::{granted, refused, unrestored};
use rows_calls::values::{config, digest, digests};
use rows_calls::world::World;
use rows_calls::writing::{write_config, write_encoding, write_peaks};
use rows_text::answer::Answer;
use rows_text::refusal::{Refusal, UNKNOWN};
use rows_text::words::{Words, give_name, named};

/// A structure without leaves.
pub fn empty<F: Family, H: Hasher<F> + Drop>(
    world: &mut World<F, H>,
    name: &str,
) -> Result<(), Refusal> {
    give_name(
        world.alloc,
        &mut world.structures,
        name,
        Mem::new(world.alloc),
    )
}

/// A deep copy of a structure.
pub fn copy<F: Family, H: Hasher<F> + Drop>(
    world: &mut World<F, H>,
    name: &str,
    original: &str,
) -> Result<(), Refusal> {
    let structure = named(&world.structures, original)?.clone()?;
    give_name(world.alloc, &mut world.structures, name, structure)
}

/// The structure with a pruning boundary, nodes and pins.
pub fn parts<F: Family, H: Hasher<F> + Drop>(
    world: &mut World<F, H>,
    name: &str,
    words: &mut Words,
) -> Result<(), Refusal> {
    let config = config(words);
    words.end()?;
    let structure = granted(Mem::init(config))?;
    give_name(world.alloc, &mut world.structures, name, structure)
}

/// The same by the call that takes the three one by one.
pub fn from_components<F: Family, H: Hasher<F> + Drop>(
    world: &mut World<F, H>,
    name: &str,
    words: &mut Words,
) -> Result<(), Refusal> {
    let boundary = Location::new(words.number());
    let nodes = digests(words);
    let pins = digests(words);
    words.end()?;
    let structure = granted(Mem::from_components(nodes, boundary, pins))?;
    give_name(world.alloc, &mut world.structures, name, structure)
}

/// The structure with a pruning boundary, nodes and pins, if none is damaged and they have the root for a number of inactive peaks.
pub fn restore<F: Family, H: Hasher<F> + Drop>(
    world: &mut World<F, H>,
    name: &str,
    words: &mut Words,
) -> Result<(), Refusal> {
    let config = config(words);
    let inactive = words.count();
    let root = digest(words);
    words.end()?;
    match Mem::restore(config, &world.hasher, inactive, &root) {
        Ok(structure) => give_name(world.alloc, &mut world.structures, name, structure),
        Err(error) => Err(unrestored(&error)),
    }
}

/// The encoding of a structure, appended to the byte 77.
pub fn write_mem<F: Family, H: Hasher<F> + Drop>(
    world: &World<F, H>,
    name: &str,
    answer: &mut Answer,
) -> Result<(), Refusal> {
    write_encoding(world.alloc, named(&world.structures, name)?, answer)
}

/// The components of a structure.
pub fn components<F: Family, H: Hasher<F> + Drop>(
    world: &World<F, H>,
    name: &str,
    answer: &mut Answer,
) -> Result<(), Refusal> {
    let config = named(&world.structures, name)?.to_config()?;
    write_config(answer, &config);
    Ok(())
}

/// The position of the first damaged node of a structure.
pub fn first_damaged<F: Family, H: Hasher<F> + Drop>(
    world: &World<F, H>,
    name: &str,
    answer: &mut Answer,
) -> Result<(), Refusal> {
    let structure = named(&world.structures, name)?;
    match structure.first_damaged(&world.hasher) {
        Some(position) => answer.number(position.as_u64()),
        None => answer.text("none"),
    }
    Ok(())
}

/// Prunes a structure before a location.
pub fn prune<F: Family, H: Hasher<F> + Drop>(
    world: &mut World<F, H>,
    name: &str,
    words: &mut Words,
) -> Result<(), Refusal> {
    let boundary = Location::new(words.number());
    words.end()?;
    let Some(structure) = world.structures.get_mut(name) else {
        return Err(UNKNOWN);
    };
    // Not by `granted`: the check has no rule for passing on by value what a call through a table's `&mut` answers.
    match structure.prune(boundary) {
        Ok(()) => Ok(()),
        Err(error) => Err(refused(&error)),
    }
}

/// Prunes all leaves of a structure.
pub fn prune_all<F: Family, H: Hasher<F> + Drop>(
    world: &mut World<F, H>,
    name: &str,
) -> Result<(), Refusal> {
    let Some(structure) = world.structures.get_mut(name) else {
        return Err(UNKNOWN);
    };
    match structure.prune_all() {
        Ok(()) => Ok(()),
        Err(error) => Err(refused(&error)),
    }
}

// Whether two structures have the same counts and nodes.
fn are_same<F: Family, D: Digest>(structure: &Mem<F, D>, other: &Mem<F, D>) -> bool {
    let mut are_same = structure.size() == other.size() && structure.leaves() == other.leaves();
    for position in 0..structure.size().as_u64() {
        let position = Position::new(position);
        are_same &= structure.get_node(position) == other.get_node(position);
    }
    are_same
}

/// Whether two structures have the same counts and nodes.
pub fn same<F: Family, H: Hasher<F> + Drop>(
    world: &World<F, H>,
    name: &str,
    other: &str,
    answer: &mut Answer,
) -> Result<(), Refusal> {
    let structure = named(&world.structures, name)?;
    let other = named(&world.structures, other)?;
    answer.yes_or_no(are_same(structure, other));
    Ok(())
}

/// The locations of the leaves that are held.
pub fn bounds<F: Family, H: Hasher<F> + Drop>(
    world: &World<F, H>,
    name: &str,
    answer: &mut Answer,
) -> Result<(), Refusal> {
    let bounds = named(&world.structures, name)?.bounds();
    answer.number(bounds.start.as_u64());
    answer.text("..");
    answer.number(bounds.end.as_u64());
    Ok(())
}

/// The positions and heights of the peaks of a structure.
pub fn peaks<F: Family, H: Hasher<F> + Drop>(
    world: &World<F, H>,
    name: &str,
    answer: &mut Answer,
) -> Result<(), Refusal> {
    let structure = named(&world.structures, name)?;
    let peaks: Vec<(Position<F>, u32)> = structure.peak_iterator().collect(world.alloc)?;
    write_peaks(answer, &peaks);
    Ok(())
}
