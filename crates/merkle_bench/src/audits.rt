//! Audits of the proof of a list's last leaves, measured beside computing the list's nodes.

use crate::stopwatch::Stopwatch;
use merkle_audit::{Verdict, audit_range};
use merkle_core::digest::{Sha256Plain, Xor8};
use merkle_core::family::{Bagging, Family};
use merkle_core::hasher::{Hasher, Standard};
use merkle_core::location::Location;
use merkle_core::mem::Mem;
use merkle_core::position::Position;
use merkle_core::proof::Proof;
use merkle_core::{mmb, mmr};
use std::alloc::Global;
use std::time::CpuClock;

/// The number of bytes of an element, which is the number of its leaf.
const ELEMENT_SIZE: usize = 8;

/// How much is audited: the number of leaves of the list, how many of the last of them are proved, and the number of rounds.
#[derive(Clone, Copy)]
pub struct Audited {
    pub leaves: u64,
    pub proved: u64,
    pub rounds: u64,
}

// The leaf digests of a list.
fn leaf_digests<F: Family, H: Hasher<F>>(
    alloc: Global,
    hasher: &H,
    leaves: u64,
) -> Option<Vec<H::Digest>> {
    let mut list = Vec::new(alloc);
    for leaf in 0..leaves {
        let Ok(position) = Position::<F>::try_from(Location::new(leaf)) else {
            return None;
        };
        list.push(hasher.leaf_digest(position, &leaf.to_be_bytes()))
            .ok()?;
    }
    Some(list)
}

// The bytes of the last elements, one after another.
fn last_elements(alloc: Global, audited: &Audited) -> Option<Vec<u8>> {
    let mut bytes = Vec::new(alloc);
    for leaf in audited.leaves.saturating_sub(audited.proved)..audited.leaves {
        bytes.extend_from_slice(&leaf.to_be_bytes()).ok()?;
    }
    Some(bytes)
}

// Computes the nodes of a list, and proves the leaves from a location on. The nodes are dropped.
fn prove<F: Family, H: Hasher<F>, C: CpuClock>(
    alloc: Global,
    watch: &mut Stopwatch<C>,
    name: &'static str,
    hasher: &H,
    list: &[H::Digest],
    start: Location<F>,
) -> Option<Proof<F, H::Digest>> {
    let empty = Mem::new(alloc);
    let batch = empty.new_batch().ok()?;
    let batch = batch.add_leaf_digests(list).ok()?;
    let begin = watch.now();
    let batch = batch.merkleize(&empty, hasher).ok()?;
    watch.note(name, "merkleize", list.len() as u64, begin);
    batch
        .range_proof(&empty, hasher, start..batch.leaves(), 0)
        .ok()
}

// Audits a proof with elements, whose bytes are given.
fn audit<F: Family, H: Hasher<F>, C: CpuClock>(
    watch: &mut Stopwatch<C>,
    row: (&'static str, &'static str),
    hasher: &H,
    list: &[H::Digest],
    proof: &Proof<F, H::Digest>,
    start: Location<F>,
    bytes: &Vec<u8>,
) -> Option<Verdict<F, H::Digest>> {
    let elements: Vec<&[u8]> = bytes
        .chunks_exact(ELEMENT_SIZE)
        .collect(*bytes.allocator())
        .ok()?;
    let begin = watch.now();
    let verdict = audit_range(hasher, list, 0, proof, &elements, start);
    watch.note(row.0, row.1, list.len() as u64, begin);
    verdict.ok()
}

// Changes a bit of each of the last two elements. By the exclusive or of bytes the node above these leaves keeps its digest.
fn change(bytes: &mut Vec<u8>) {
    let count = bytes.len();
    if count > ELEMENT_SIZE {
        bytes[count - 1] ^= 1;
        bytes[count - 1 - ELEMENT_SIZE] ^= 1;
    }
}

// Audits the honest proof of the last leaves, and the same proof with other elements, in one round.
fn measure_one<F: Family, H: Hasher<F>, C: CpuClock>(
    alloc: Global,
    watch: &mut Stopwatch<C>,
    name: &'static str,
    hasher: &H,
    audited: &Audited,
) -> Option<()> {
    let list = leaf_digests(alloc, hasher, audited.leaves)?;
    let start = Location::new(audited.leaves.saturating_sub(audited.proved));
    let mut bytes = last_elements(alloc, audited)?;
    let proof = prove(alloc, watch, name, hasher, &list, start)?;
    let honest = (name, "audit of an honest proof");
    match audit(watch, honest, hasher, &list, &proof, start, &bytes)? {
        Verdict::Honest => (),
        _ => watch.is_whole = false,
    }
    change(&mut bytes);
    let changed = (name, "audit with other elements");
    match audit(watch, changed, hasher, &list, &proof, start, &bytes)? {
        Verdict::Honest => watch.is_whole = false,
        _ => (),
    }
    Some(())
}

/// Measures audits in both families. By the exclusive or of bytes the changed elements collide at the last place; by SHA-256 they
/// are rejected.
pub fn measure_audits<C: CpuClock>(
    alloc: Global,
    watch: &mut Stopwatch<C>,
    audited: &Audited,
) -> Option<()> {
    let sha256 = Standard::<Sha256Plain>::new(Bagging::ForwardFold);
    let xor8 = Standard::<Xor8>::new(Bagging::ForwardFold);
    for _ in 0..audited.rounds {
        measure_one::<mmr::Family, _, C>(alloc, watch, "mmr sha256", &sha256, audited)?;
        measure_one::<mmb::Family, _, C>(alloc, watch, "mmb sha256", &sha256, audited)?;
        measure_one::<mmr::Family, _, C>(alloc, watch, "mmr xor8", &xor8, audited)?;
        measure_one::<mmb::Family, _, C>(alloc, watch, "mmb xor8", &xor8, audited)?;
    }
    Some(())
}
