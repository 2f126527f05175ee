//! A transparency log and its clients: an example to copy.
//!
//! The log keeps the nodes of the tree and publishes the root. A client keeps a root with its leaf count, and is shown by proofs
//! which entries the log has, and that a newer root extends the one that it keeps. Two answers that it accepts and that differ are
//! evidence.
#![tactic(auto)]

mod client;
mod evidence;
mod frontier;
mod keeping;
mod telling;
mod trusting;

use crate::evidence::show_evidence;
use crate::keeping::{show_frontier, show_reasons, show_restart};
use crate::telling::{say, say_both, tell, tell_size};
use crate::trusting::{client_of, show_acceptance, show_following};
use hex::encode;
use merkle_core::codec::{Read, Write};
use merkle_core::digest::{Digest, Sha256Plain, Xor8};
use merkle_core::error::{DecodeError, Error, OutOfMemory};
use merkle_core::family::{self, Bagging, Family as _};
use merkle_core::granted;
use merkle_core::hasher::Hasher;
use merkle_core::mmr::{
    Family, Location, MAX_PROOF_DIGESTS_PER_ELEMENT, Mmr, Proof, StandardHasher,
};
use merkle_core::restore::RestoreError;
use merkle_core::verification::ProofStore;
use std::alloc::{AllocError, Global};
use std::io;
use std::process::ExitCode;

const FIRST: [&[u8]; 5] = [b"ann", b"bob", b"cleo", b"dan", b"eve"];

const LATER: [&[u8]; 3] = [b"fay", b"gus", b"hal"];

/// Why a step failed.
#[derive(Debug, Drop, thiserror::Error)]
enum LogError {
    #[error("pruned")]
    Pruned,
    #[error("refused by the log")]
    Refused,
    #[error("not decoded: {0}")]
    NotDecoded(#[from] DecodeError),
    #[error("out of memory")]
    OutOfMemory(#[from(alloc)] AllocError),
    #[error("no output: {0}")]
    NoOutput(#[from] io::Error),
}

/// `granted!` passes the errors of the log on by this.
impl<F: family::Family> From<&Error<F>> for LogError {
    fn from(error: &Error<F>) -> Self {
        match error {
            Error::ElementPruned(_) => LogError::Pruned,
            Error::OutOfMemory => LogError::OutOfMemory(AllocError),
            _ => LogError::Refused,
        }
    }
}

/// `granted!` passes the refusals to restore a log on by this.
impl From<&RestoreError<Family>> for LogError {
    fn from(error: &RestoreError<Family>) -> Self {
        match error {
            RestoreError::OutOfMemory => LogError::OutOfMemory(AllocError),
            _ => LogError::Refused,
        }
    }
}

/// `?` passes the errors of checks on by this.
impl From<OutOfMemory> for LogError {
    fn from(_: OutOfMemory) -> Self {
        LogError::OutOfMemory(AllocError)
    }
}

/// A log: its entries are the leaves of a Mountain Range. No peak of it counts as inactive.
#[derive(Drop)]
struct Log<H: Hasher<Family> + Drop> {
    alloc: Global,
    hasher: H,
    tree: Mmr<H::Digest>,
}

impl<H: Hasher<Family> + Drop> Log<H> {
    fn new(alloc: Global, hasher: H) -> Self {
        let tree = Mmr::new(alloc);
        Log {
            alloc,
            hasher,
            tree,
        }
    }

    /// Appends entries in one batch, and answers the new root.
    fn append(&mut self, entries: &[&[u8]]) -> Result<H::Digest, LogError> {
        let mut batch = granted!(self.tree.new_batch());
        for entry in entries {
            batch = granted!(batch.add(&self.hasher, entry));
        }
        let batch = granted!(batch.merkleize(&self.tree, &self.hasher));
        granted!(self.tree.apply_batch(&batch));
        Ok(granted!(self.tree.root(&self.hasher, 0)))
    }

    /// The digests of the peaks over the first `count` entries.
    fn pins(&self, count: Location) -> Result<Vec<H::Digest>, LogError> {
        let mut pins = Vec::new(self.alloc);
        if count.is_valid() {
            for position in Family::nodes_to_pin(count) {
                pins.push(self.tree.get_node(position).ok_or(LogError::Pruned)?)?;
            }
        }
        Ok(pins)
    }
}

/// The log proves an entry, and sends the proof as bytes to a client, who checks it against the root.
fn show_entry<H: Hasher<Family> + Drop>(
    rt: &impl Print,
    log: &Log<H>,
    root: &H::Digest,
) -> Result<(), LogError> {
    let location = Location::new(2);
    let mut bytes = Vec::new(log.alloc);
    granted!(log.tree.proof(&log.hasher, location, 0)).write(&mut bytes)?;
    tell_size(rt, "the proof of entry 2 has", &bytes)?;

    let proof = Proof::read(
        log.alloc,
        &mut bytes.as_slice(),
        &MAX_PROOF_DIGESTS_PER_ELEMENT,
    )?;
    let is_cleo = proof.verify_element_inclusion(&log.hasher, b"cleo", location, root)?;
    let is_dan = proof.verify_element_inclusion(&log.hasher, b"dan", location, root)?;
    say_both(rt, "entry 2 is cleo", is_cleo, "is dan", is_dan)
}

/// The log shows to a client that knows the root of the first entries that a newer root extends it.
fn show_growth<H: Hasher<Family> + Drop>(
    rt: &impl Print,
    log: &Log<H>,
    old: &H::Digest,
    root: &H::Digest,
) -> Result<(), LogError> {
    let start = Location::new(5);
    let proof = granted!(
        log.tree
            .range_proof(&log.hasher, start..log.tree.leaves(), 0)
    );
    let pins = log.pins(start)?;

    let old_of_pins: H::Digest = granted!(log.hasher.root(start, 0, &pins));
    let is_new = proof.verify_proof_and_pinned_nodes(&log.hasher, &LATER, start, &pins, root)?;
    let is_old = old_of_pins == *old;
    say(rt, "the new root extends the old one", is_new && is_old)
}

/// Who keeps the proof of a range serves the proofs of its parts, without the log.
fn show_store<H: Hasher<Family> + Drop>(
    rt: &impl Print,
    log: &Log<H>,
    root: &H::Digest,
) -> Result<(), LogError> {
    let start = Location::new(5);
    let proof = granted!(
        log.tree
            .range_proof(&log.hasher, start..log.tree.leaves(), 0)
    );
    let store = granted!(ProofStore::new(&log.hasher, &proof, &LATER, start, root));
    let part = granted!(store.range_proof(&log.hasher, Location::new(6)..Location::new(8)));
    let is_part = part.verify_range_inclusion(&log.hasher, &LATER[1..], Location::new(6), root)?;
    say(
        rt,
        "the store's proof of entries 6 and 7 is accepted",
        is_part,
    )
}

/// The log forgets entries. Its root stays, and they have no proofs any more.
fn show_pruning<H: Hasher<Family> + Drop>(
    rt: &impl Print,
    log: &mut Log<H>,
    root: &H::Digest,
) -> Result<(), LogError> {
    granted!(log.tree.prune(Location::new(4)));
    let is_same = granted!(log.tree.root(&log.hasher, 0)) == *root;
    say(rt, "the root stays after pruning", is_same)?;
    if let Err(error) = log.tree.proof(&log.hasher, Location::new(2), 0) {
        println!(rt; "entry 2: {}", LogError::from(&error))?;
    }
    Ok(())
}

/// The log and its clients, by a hasher.
fn show_log<H: Hasher<Family> + Drop>(
    rt: &impl Print,
    alloc: Global,
    hasher: H,
) -> Result<(), LogError> {
    let mut log = Log::new(alloc, hasher);
    let old = log.append(&FIRST)?;
    tell(rt, "root of 5 entries", &encode(alloc, old.as_bytes())?)?;
    show_entry(rt, &log, &old)?;
    let mut client = client_of(&log, old);
    show_acceptance(rt, &log, &client)?;

    let root = log.append(&LATER)?;
    tell(rt, "root of 8 entries", &encode(alloc, root.as_bytes())?)?;
    show_growth(rt, &log, &old, &root)?;
    show_following(rt, &log, &mut client, &root)?;
    show_store(rt, &log, &root)?;
    show_pruning(rt, &mut log, &root)?;
    show_restart(rt, &log, &old, &root)?;
    show_frontier(rt, &log, &old, &root)?;
    show_reasons(rt, &log, &root)
}

fn run(rt: &impl Print, alloc: Global) -> Result<(), LogError> {
    let hasher = StandardHasher::<Sha256Plain>::new(Bagging::ForwardFold);
    show_log(rt, alloc, hasher)?;
    let toy = StandardHasher::<Xor8>::new(Bagging::ForwardFold);
    show_evidence(rt, alloc, toy)
}

fn main(rt: HostRuntime) -> ExitCode {
    match run(&rt, rt.alloc()) {
        Ok(()) => ExitCode::SUCCESS,
        Err(error) => {
            let _ = rt.eprintln(error);
            ExitCode::FAILURE
        }
    }
}
