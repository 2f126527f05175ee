//! Calls of the family alone.
ghost use Rattle.std.specs.Prelude.{◌≤◌, IfOk};

use crate::refusal::refused;
use crate::writing::write_positions;
use merkle_core::digest::Digest;
use merkle_core::family::Family;
use merkle_core::location::Location;
use merkle_core::position::Position;
use merkle_core::proof::Proof;
use rows_text::answer::Answer;
use rows_text::refusal::Refusal;
use rows_text::words::Words;

// Refuses what is no leaf count of the family.
fn test_location<F: Family>(leaves: Location<F>) -> Result<(), Refusal>
    ensures { IfOk result (λ _. leaves ≤ F.MAX_LEAVES) }
{
    if leaves.is_valid() {
        Ok(())
    } else {
        Err(Refusal::Of("LocationOverflow", leaves.as_u64()))
    }
}

// Refuses a node count past the family's greatest.
fn test_position<F: Family>(nodes: Position<F>) -> Result<(), Refusal>
    ensures { IfOk result (λ _. nodes ≤ F.MAX_NODES) }
{
    if nodes.is_valid() {
        Ok(())
    } else {
        Err(Refusal::Of("PositionOverflow", nodes.as_u64()))
    }
}

/// The position of a leaf.
pub fn position<F: Family>(words: &mut Words, answer: &mut Answer) -> Result<(), Refusal> {
    let leaf = Location::<F>::new(words.number());
    words.end()?;
    match Position::try_from(leaf) {
        Ok(node) => answer.number(node.as_u64()),
        Err(error) => return Err(refused(&error)),
    }
    Ok(())
}

/// The location of the leaf at a position.
pub fn location<F: Family>(words: &mut Words, answer: &mut Answer) -> Result<(), Refusal> {
    let node = Position::<F>::new(words.number());
    words.end()?;
    match Location::try_from(node) {
        Ok(leaf) => answer.number(leaf.as_u64()),
        Err(error) => return Err(refused(&error)),
    }
    Ok(())
}

/// Whether some leaf count has that size in nodes.
pub fn is_size<F: Family>(words: &mut Words, answer: &mut Answer) -> Result<(), Refusal> {
    let nodes = Position::<F>::new(words.number());
    words.end()?;
    answer.yes_or_no(nodes.is_valid_size());
    Ok(())
}

/// The greatest size in nodes up to a number.
pub fn nearest_size<F: Family>(words: &mut Words, answer: &mut Answer) -> Result<(), Refusal> {
    let nodes = Position::<F>::new(words.number());
    words.end()?;
    test_position(nodes)?;
    answer.number(F::to_nearest_size(nodes).as_u64());
    Ok(())
}

/// The height of the node at a position.
pub fn height<F: Family>(words: &mut Words, answer: &mut Answer) -> Result<(), Refusal> {
    let node = Position::<F>::new(words.number());
    words.end()?;
    if !node.is_valid_index() {
        return Err(Refusal::Of("PositionOverflow", node.as_u64()));
    }
    answer.number(u64::from(F::pos_to_height(node)));
    Ok(())
}

/// The heights of the parents that come with a leaf.
pub fn parents<F: Family>(words: &mut Words, answer: &mut Answer) -> Result<(), Refusal> {
    let leaf = Location::<F>::new(words.number());
    words.end()?;
    if !leaf.is_valid_index() {
        return Err(Refusal::Of("LocationOverflow", leaf.as_u64()));
    }
    let mut count = 0;
    for height in F::parent_heights(leaf) {
        answer.separator(" ", count == 0);
        answer.number(u64::from(height));
        count = 1;
    }
    answer.none_if(count == 0);
    Ok(())
}

/// The positions to pin when the first leaves are pruned.
pub fn pins<F: Family>(words: &mut Words, answer: &mut Answer) -> Result<(), Refusal> {
    let leaves = Location::<F>::new(words.number());
    words.end()?;
    test_location(leaves)?;
    let pins: Vec<Position<F>> = F::nodes_to_pin(leaves).collect(words.alloc())?;
    write_positions(answer, &pins);
    Ok(())
}

/// How many of the oldest peaks have all their leaves below a floor.
pub fn inactive<F: Family>(words: &mut Words, answer: &mut Answer) -> Result<(), Refusal> {
    let leaves = Location::<F>::new(words.number());
    let floor = Location::new(words.number());
    words.end()?;
    test_location(leaves)?;
    answer.number(F::inactive_peaks(leaves, floor) as u64);
    Ok(())
}

/// Whether that is the number of inactive peaks that a proof has for a floor.
pub fn is_inactive<F: Family, D: Digest>(
    words: &mut Words,
    answer: &mut Answer,
) -> Result<(), Refusal> {
    let inactive_peaks = words.count();
    let leaves = Location::<F>::new(words.number());
    let floor = Location::new(words.number());
    words.end()?;
    test_location(leaves)?;
    let mut proof = Proof::<F, D>::empty(words.alloc());
    proof.inactive_peaks = inactive_peaks;
    answer.yes_or_no(proof.matches_canonical_inactive_peaks(leaves, floor));
    Ok(())
}
