//! The digests of many leaves or nodes, several at a time.

use crate::values::digests;
use crate::writing::write_digests;
use merkle_core::digest::Digest;
use merkle_core::family::Family;
use merkle_core::hasher::{self, Hasher};
use merkle_core::location::Location;
use merkle_core::position::Position;
use merkle_core::{leaves, nodes};
use rows_text::answer::Answer;
use rows_text::refusal::{OUT_OF_MEMORY, Refusal, SYNTAX};
use rows_text::words::Words;
use std::alloc::Global;

// The position of the leaf at a location; `None` if no list has it.
fn position_of<F: Family>(leaf: Location<F>) -> Option<Position<F>> {
    if leaf.is_valid() {
        Some(F::location_to_position(leaf))
    } else {
        None
    }
}

/// The digests of the leaves from a location on with these elements.
pub fn leaf_digests<F: Family, H: Hasher<F>>(
    hasher: &H,
    words: &mut Words,
    answer: &mut Answer,
) -> Result<(), Refusal> {
    let mut leaf = Location::<F>::new(words.number());
    let elements = words.elements();
    words.end()?;
    let mut all: Vec<(Position<F>, &[u8])> = Vec::new(words.alloc());
    for element in &elements {
        let Some(position) = position_of(leaf) else {
            return Err(Refusal::Of("LocationOverflow", leaf.as_u64()));
        };
        if all.push((position, element.as_slice())).is_err() {
            return Err(OUT_OF_MEMORY);
        }
        leaf = leaf.saturating_add(1);
    }
    let mut found = Vec::new(words.alloc());
    leaves::leaf_digests(hasher, &all, &mut found)?;
    write_digests(answer, &found);
    Ok(())
}

// The positions, each with the digest of its left and that of its right child.
fn parents<F: Family, D: Digest>(
    alloc: Global,
    positions: &[u64],
    left: &[D],
    right: &[D],
) -> Result<Vec<(Position<F>, D, D)>, Refusal> {
    let mut all = Vec::new(alloc);
    for (index, position) in positions.iter().enumerate() {
        match (left.get(index), right.get(index)) {
            (Some(left), Some(right)) => all.push((Position::new(*position), *left, *right))?,
            _ => return Err(SYNTAX),
        }
    }
    Ok(all)
}

/// The digests of the nodes at these positions, with these digests of their left and of their right children.
pub fn node_digests<F: Family, H: Hasher<F>>(
    hasher: &H,
    words: &mut Words,
    answer: &mut Answer,
) -> Result<(), Refusal> {
    let positions = words.numbers();
    let left: Vec<H::Digest> = digests(words);
    let right: Vec<H::Digest> = digests(words);
    words.end()?;
    if positions.len() != left.len() || left.len() != right.len() {
        return Err(SYNTAX);
    }
    let all = parents::<F, H::Digest>(words.alloc(), &positions, &left, &right)?;
    let mut found = Vec::new(words.alloc());
    nodes::node_digests(hasher, &all, &mut found)?;
    write_digests(answer, &found);
    Ok(())
}

/// The bytes that the root of a leaf count hashes, with a number of inactive peaks and at most one digest.
pub fn root_string<F: Family, H: Hasher<F>>(
    hasher: &H,
    words: &mut Words,
    answer: &mut Answer,
) -> Result<(), Refusal> {
    let leaves = Location::<F>::new(words.number());
    let committed = words.count();
    let folded: Vec<H::Digest> = digests(words);
    words.end()?;
    let bagging = hasher.root_bagging();
    let string = hasher::root_string(
        words.alloc(),
        F::DOMAIN,
        bagging,
        leaves,
        committed,
        folded.first(),
    );
    match string {
        Ok(string) => answer.bytes(&string),
        Err(_) => return Err(OUT_OF_MEMORY),
    }
    Ok(())
}
