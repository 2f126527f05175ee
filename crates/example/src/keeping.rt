//! A log that is written down and read back, one without its nodes, and a client that tells why it refuses a proof.

use crate::frontier::Frontier;
use crate::telling::{say, tell, tell_size};
use crate::{FIRST, LATER, Log, LogError};
use merkle_core::codec::{Read, Write};
use merkle_core::digest::Digest;
use merkle_core::error::ReconstructionError;
use merkle_core::family::MAX_PINNED_NODES;
use merkle_core::granted;
use merkle_core::hasher::Hasher;
use merkle_core::mem::{Config, ConfigLimits};
use merkle_core::mmr::{Family, Location, Mmr, Proof};
use merkle_core::restore::RestoreError;
use std::alloc::Global;

/// The bytes of what a log holds: its boundary, the digests of the peaks over the entries before it, and the nodes from there on.
fn written<H: Hasher<Family> + Drop>(log: &Log<H>) -> Result<Vec<u8>, LogError> {
    let mut bytes = Vec::new(log.alloc);
    log.tree.write(&mut bytes)?;
    Ok(bytes)
}

/// What was written down. No more digests are asked for than there are bytes.
fn read_back<D: Digest>(alloc: Global, bytes: &[u8]) -> Result<Config<Family, D>, LogError> {
    let limits = ConfigLimits {
        pinned_nodes: MAX_PINNED_NODES,
        nodes: bytes.len(),
    };
    let mut rest = bytes;
    let config = Config::read(alloc, &mut rest, &limits)?;
    if !rest.is_empty() {
        return Err(LogError::Refused);
    }
    Ok(config)
}

/// Why nothing is restored of what was read back.
fn refusal(error: &RestoreError<Family>) -> Result<&'static str, LogError> {
    match error {
        RestoreError::DamagedNode(_) => Ok("a damaged node"),
        RestoreError::RootMismatch => Ok("another root"),
        _ => Err(LogError::from(error)),
    }
}

/// What becomes of bytes that are read back, in the place of the log with this root.
///
/// The root covers the peaks alone, and says nothing of the nodes below them; these are checked by their parents.
fn outcome<H: Hasher<Family> + Drop>(
    log: &Log<H>,
    bytes: &[u8],
    root: &H::Digest,
) -> Result<&'static str, LogError> {
    let config = read_back(log.alloc, bytes)?;
    let restored = Mmr::restore(config, &log.hasher, 0, root);
    match &restored {
        Ok(_) => Ok("the log"),
        Err(error) => refusal(error),
    }
}

/// Whether bytes are those of a structure with this root, whatever nodes are below its peaks.
fn has_root<H: Hasher<Family> + Drop>(
    log: &Log<H>,
    bytes: &[u8],
    root: &H::Digest,
) -> Result<bool, LogError> {
    let tree = granted!(Mmr::init(read_back(log.alloc, bytes)?));
    Ok(granted!(tree.root(&log.hasher, 0)) == *root)
}

/// Changes a bit of the byte at an index.
fn flip(bytes: &mut [u8], index: usize) {
    if let Some(byte) = bytes.get_mut(index) {
        *byte ^= 1;
    }
}

/// The log is written down, and restored after a restart. Its root does not notice a node that was damaged below a peak; `restore`
/// does.
pub(crate) fn show_restart<H: Hasher<Family> + Drop>(
    rt: &impl Print,
    log: &Log<H>,
    old: &H::Digest,
    root: &H::Digest,
) -> Result<(), LogError> {
    let mut bytes = written(log)?;
    tell_size(rt, "the log is written in", &bytes)?;
    tell(rt, "read back, it is", outcome(log, &bytes, root)?)?;
    tell(rt, "with the root of 5 entries", outcome(log, &bytes, old)?)?;
    // The peak is written last, and before it a node below it.
    let last = bytes.len().saturating_sub(1);
    let inner = last.saturating_sub(H::Digest::SIZE);
    flip(&mut bytes, inner);
    let is_same = has_root(log, &bytes, root)?;
    say(
        rt,
        "with a bit of an inner node changed, its root is the same",
        is_same,
    )?;
    tell(rt, "read back so, it has", outcome(log, &bytes, root)?)
}

/// Appends entries to a frontier, one by one, and answers whether the last root is this one.
fn ends_at<H: Hasher<Family>>(
    hasher: &H,
    frontier: &mut Frontier<Family, H::Digest>,
    entries: &[&[u8]],
    root: &H::Digest,
) -> Result<bool, LogError> {
    let mut is_last = false;
    for entry in entries {
        is_last = frontier.append(hasher, entry)? == *root;
    }
    Ok(is_last)
}

/// Who keeps the peaks alone gives the same roots, writes them down in few bytes, and goes on from these.
pub(crate) fn show_frontier<H: Hasher<Family> + Drop>(
    rt: &impl Print,
    log: &Log<H>,
    old: &H::Digest,
    root: &H::Digest,
) -> Result<(), LogError> {
    let mut frontier = Frontier::new(log.alloc);
    let is_old = ends_at(&log.hasher, &mut frontier, &FIRST, old)?;
    say(rt, "the frontier has the root of 5 entries", is_old)?;
    let mut bytes = Vec::new(log.alloc);
    frontier.save()?.write(&mut bytes)?;
    tell_size(rt, "the frontier is written in", &bytes)?;

    let config = read_back(log.alloc, &bytes)?;
    let mut frontier = Frontier {
        peaks: granted!(Mmr::restore(config, &log.hasher, 0, old)),
    };
    let is_new = ends_at(&log.hasher, &mut frontier, &LATER, root)?;
    say(rt, "read back, it goes on to the root of 8 entries", is_new)
}

/// Why a proof leads to no root.
fn no_root(error: &ReconstructionError) -> &'static str {
    match error {
        ReconstructionError::MissingDigests => "missing digests",
        ReconstructionError::InvalidEndLoc => "past the log",
        ReconstructionError::OutOfMemory => "no memory",
        _ => "no proof of this place",
    }
}

/// Whether a client accepts a proof of an entry, or why not.
fn reason<H: Hasher<Family>>(
    hasher: &H,
    proof: &Proof<H::Digest>,
    entry: &[u8],
    location: Location,
    root: &H::Digest,
) -> &'static str {
    let rebuilt = match proof.reconstruct_root(hasher, &[entry], location) {
        Ok(rebuilt) => rebuilt,
        Err(error) => return no_root(&error),
    };
    if rebuilt == *root {
        "accepted"
    } else {
        "another root"
    }
}

/// A client tells why it refuses.
pub(crate) fn show_reasons<H: Hasher<Family> + Drop>(
    rt: &impl Print,
    log: &Log<H>,
    root: &H::Digest,
) -> Result<(), LogError> {
    let location = Location::new(5);
    let proof = granted!(log.tree.proof(&log.hasher, location, 0));
    let said = reason(&log.hasher, &proof, b"fay", location, root);
    tell(rt, "fay", said)?;
    let said = reason(&log.hasher, &proof, b"gus", location, root);
    tell(rt, "gus", said)?;
    let said = reason(&log.hasher, &proof, b"fay", Location::new(8), root);
    tell(rt, "entry 8", said)?;
    let short = Proof {
        leaves: proof.leaves,
        inactive_peaks: proof.inactive_peaks,
        digests: Vec::new(log.alloc),
    };
    let said = reason(&log.hasher, &short, b"fay", location, root);
    tell(rt, "without digests", said)
}
