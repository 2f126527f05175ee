//! Two servers answer under one root, and the evidence convicts one of them.
//!
//! The hash is a toy, the exclusive or of bytes, whose collisions are at hand: the second server has another entry, with a proof
//! that is accepted. With a hash for which no collisions are known there is no such proof, as far as anyone knows.

use crate::telling::{say, tell};
use crate::{Log, LogError};
use merkle_audit::{PairVerdict, Verdict, audit_pair, audit_range};
use merkle_core::digest::Digest;
use merkle_core::family::Family as _;
use merkle_core::granted;
use merkle_core::hasher::Hasher;
use merkle_core::mmr::{Family, Location, Mmr, Proof};
use std::alloc::Global;

const ENTRIES: [&[u8]; 3] = [b"\x01", b"\x02", b"\x04"];

/// The location of the entry that is asked for.
fn start() -> Location {
    Location::new(0)
}

/// What a server answers about the first entry.
#[derive(Drop)]
struct Answer<D: Digest> {
    entry: [&'static [u8]; 1],
    proof: Proof<D>,
}

/// The leaf digests of a log, which an auditor keeps.
fn leaf_digests<D: Digest>(alloc: Global, tree: &Mmr<D>) -> Result<Vec<D>, LogError> {
    let mut list = Vec::new(alloc);
    for index in 0..tree.leaves().as_u64() {
        let location = Location::new(index);
        if location.is_valid_index() {
            let digest = tree.get_node(Family::location_to_position(location));
            list.push(digest.ok_or(LogError::Pruned)?)?;
        }
    }
    Ok(list)
}

/// The answer of the server that is honest.
fn honest_answer<H: Hasher<Family>>(
    hasher: &H,
    tree: &Mmr<H::Digest>,
) -> Result<Answer<H::Digest>, LogError> {
    Ok(Answer {
        entry: [ENTRIES[0]],
        proof: granted!(tree.proof(hasher, start(), 0)),
    })
}

/// The answer of the other: the second entry is in the place of the first, and the last digest makes up for it.
fn false_answer<D: Digest>(honest: &Answer<D>) -> Result<Answer<D>, LogError> {
    let mut proof = honest.proof.clone()?;
    if let Some(sibling) = proof.digests.last_mut() {
        *sibling = D::EMPTY;
    }
    Ok(Answer {
        entry: [ENTRIES[1]],
        proof,
    })
}

/// Whether a client accepts an answer.
fn is_accepted<H: Hasher<Family>>(
    hasher: &H,
    answer: &Answer<H::Digest>,
    root: &H::Digest,
) -> Result<bool, LogError> {
    Ok(
        answer
            .proof
            .verify_range_inclusion(hasher, &answer.entry, start(), root)?,
    )
}

/// A client holds two answers against each other.
fn show_pair<H: Hasher<Family>>(
    rt: &impl Print,
    hasher: &H,
    root: &H::Digest,
    first: &Answer<H::Digest>,
    second: &Answer<H::Digest>,
) -> Result<(), LogError> {
    let verdict = audit_pair(
        hasher,
        root,
        (&first.proof, &first.entry, start()),
        (&second.proof, &second.entry, start()),
    );
    match granted!(verdict) {
        PairVerdict::Rejected => tell(rt, "the answers", "one is rejected"),
        PairVerdict::Consistent => tell(rt, "the answers agree", "nothing here contradicts them"),
        PairVerdict::Collision { .. } => tell(rt, "the answers collide", "one of them is false"),
    }
}

/// An auditor who has the list says whose answer is honest.
fn show_verdict<H: Hasher<Family>>(
    rt: &impl Print,
    hasher: &H,
    list: &[H::Digest],
    server: &str,
    answer: &Answer<H::Digest>,
) -> Result<(), LogError> {
    match granted!(audit_range(hasher, list, 0, &answer.proof, &answer.entry, start())) {
        Verdict::Rejected => tell(rt, server, "rejected"),
        Verdict::Honest => tell(rt, server, "honest"),
        Verdict::Collision { .. } => tell(rt, server, "convicted by a collision"),
    }
}

/// Two servers answer what the first entry is, by a toy hasher; a client finds that they collide, and an auditor who of them is
/// honest.
pub fn show_evidence<H: Hasher<Family> + Drop>(
    rt: &impl Print,
    alloc: Global,
    hasher: H,
) -> Result<(), LogError> {
    let mut log = Log::new(alloc, hasher);
    let root = log.append(&ENTRIES)?;
    let first = honest_answer(&log.hasher, &log.tree)?;
    let second = false_answer(&first)?;
    let are_accepted = is_accepted(&log.hasher, &first, &root)?
        && is_accepted(&log.hasher, &second, &root)?;
    say(rt, "both answers are accepted", are_accepted)?;
    show_pair(rt, &log.hasher, &root, &first, &second)?;
    let list = leaf_digests(alloc, &log.tree)?;
    show_verdict(rt, &log.hasher, &list, "the first server", &first)?;
    show_verdict(rt, &log.hasher, &list, "the second server", &second)
}
