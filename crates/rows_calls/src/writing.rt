//! Values as text.

use crate::refusal::refused;
use merkle_core::codec::Write;
use merkle_core::digest::Digest;
use merkle_core::error::Error;
use merkle_core::family::Family;
use merkle_core::mem::Config;
use merkle_core::position::Position;
use merkle_core::proof::Proof;
use merkle_core::read::Readable;
use rows_text::answer::Answer;
use rows_text::refusal::{CHANGED, OUT_OF_MEMORY, Refusal};
use std::alloc::Global;

/// The greatest number of nodes that is written.
const SHOWN: u64 = 256;

// What stands in a vector before an encoding is appended.
const BEFORE: u8 = 0x77;

/// Appends the encoding of a value to a vector of one byte, which has no room for it, and writes all its bytes.
pub fn write_encoding<V: Write>(
    alloc: Global,
    value: &V,
    answer: &mut Answer,
) -> Result<(), Refusal> {
    let mut bytes = Vec::with_capacity(alloc, 1)?;
    bytes.push(BEFORE)?;
    let result = value.write(&mut bytes);
    match (result, bytes.as_slice()) {
        (Ok(()), _) => {
            answer.bytes(&bytes);
            Ok(())
        }
        (Err(_), [BEFORE]) => Err(OUT_OF_MEMORY),
        (Err(_), _) => Err(CHANGED),
    }
}

/// Writes digests as one word.
pub fn write_digests<D: Digest>(answer: &mut Answer, digests: &[D]) {
    for (index, digest) in digests.iter().enumerate() {
        answer.separator(",", index == 0);
        answer.bytes(digest.as_bytes());
    }
    answer.none_if(digests.is_empty());
}

/// Writes the components of a structure: the boundary, the nodes and the pins.
pub fn write_config<F: Family, D: Digest>(answer: &mut Answer, config: &Config<F, D>) {
    answer.number(config.pruning_boundary.as_u64());
    answer.text(" ");
    write_digests(answer, &config.nodes);
    answer.text(" ");
    write_digests(answer, &config.pinned_nodes);
}

/// Writes digests, each after its position, as one word.
pub fn write_pairs<F: Family, D: Digest>(answer: &mut Answer, pairs: &[(Position<F>, D)]) {
    for (index, (position, digest)) in pairs.iter().enumerate() {
        answer.separator(",", index == 0);
        answer.number(position.as_u64());
        answer.text(":");
        answer.bytes(digest.as_bytes());
    }
    answer.none_if(pairs.is_empty());
}

/// Writes the positions of peaks, each with its height.
pub fn write_peaks<F: Family>(answer: &mut Answer, peaks: &[(Position<F>, u32)]) {
    for (index, (position, height)) in peaks.iter().enumerate() {
        answer.separator(" ", index == 0);
        answer.number(position.as_u64());
        answer.text(":");
        answer.number(u64::from(*height));
    }
    answer.none_if(peaks.is_empty());
}

/// Writes positions.
pub fn write_positions<F: Family>(answer: &mut Answer, positions: &[Position<F>]) {
    for (index, position) in positions.iter().enumerate() {
        answer.separator(" ", index == 0);
        answer.number(position.as_u64());
    }
    answer.none_if(positions.is_empty());
}

/// Writes the digest of a node, or a dash for none.
pub fn write_node<D: Digest>(answer: &mut Answer, digest: Option<D>) {
    match digest {
        Some(digest) => answer.bytes(digest.as_bytes()),
        None => answer.text("-"),
    }
}

/// Writes the nodes by position, up to the node count, at which there is none.
pub fn write_nodes<R: Readable>(answer: &mut Answer, value: &R) {
    for position in 0..value.size().as_u64().min(SHOWN) + 1 {
        answer.separator(" ", position == 0);
        write_node(answer, value.get_node(Position::new(position)));
    }
}

/// Writes the leaf count of a proof, its number of inactive peaks and its digests, as `check` reads them.
pub fn write_proof<F: Family, D: Digest>(answer: &mut Answer, proof: &Proof<F, D>) {
    answer.number(proof.leaves.as_u64());
    answer.text(" ");
    answer.number(proof.inactive_peaks as u64);
    answer.text(" ");
    write_digests(answer, proof.digests.as_slice());
}

/// Writes the proof that a call answers, or returns what is written for its error.
pub fn write_granted_proof<F: Family, D: Digest>(
    answer: &mut Answer,
    proof: Result<Proof<F, D>, Error<F>>,
) -> Result<(), Refusal> {
    match proof {
        Ok(proof) => {
            write_proof(answer, &proof);
            Ok(())
        }
        Err(error) => Err(refused(&error)),
    }
}

/// Writes the positions that a call answers, or returns what is written for its error.
pub fn write_granted_positions<F: Family>(
    answer: &mut Answer,
    positions: Result<Vec<Position<F>>, Error<F>>,
) -> Result<(), Refusal> {
    match positions {
        Ok(positions) => {
            write_positions(answer, &positions);
            Ok(())
        }
        Err(error) => Err(refused(&error)),
    }
}

/// Writes whether a proof is accepted, or returns the refusal.
pub fn write_accepted(answer: &mut Answer, accepted: Result<bool, Refusal>) -> Result<(), Refusal> {
    match accepted {
        Ok(is_accepted) => {
            answer.yes_or_no(is_accepted);
            Ok(())
        }
        Err(refusal) => Err(refusal),
    }
}

/// Writes how many proofs there are.
pub fn write_proved(answer: &mut Answer, proved: u64) {
    answer.number(proved);
    answer.text(" proved");
}
