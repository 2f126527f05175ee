//! Proofs of scattered leaves and their checks, measured at one hash.

use crate::stopwatch::Stopwatch;
use merkle_core::family::Family;
use merkle_core::hasher::Hasher;
use merkle_core::location::Location;
use merkle_core::mem::Mem;
use merkle_core::proof::{Proof, multi_proof_positions};
use merkle_core::verification::multi_proof;
use std::alloc::Global;
use std::time::CpuClock;

/// How many leaves are proved together.
const TOGETHER: usize = 50;

/// How often that is done.
const TIMES: u64 = 20;

/// A proof of the first of these leaves together.
pub fn measure_scattered<F: Family, H: Hasher<F>, C: CpuClock>(
    alloc: Global,
    watch: &mut Stopwatch<C>,
    tree: &'static str,
    hasher: &H,
    structure: &Mem<F, H::Digest>,
    elements: &[&[u8]],
    leaves: &[u64],
) -> Option<()> {
    let locations = first_ascending(alloc, leaves)?;
    let elements = located(alloc, elements, &locations)?;
    let start = watch.now();
    find_positions(alloc, watch, structure.leaves(), &locations);
    watch.note(tree, "positions of 50 scattered", TIMES, start);
    let proof = multi_proof(alloc, structure, 0, &locations).ok()?;
    let root = structure.root(hasher, 0).ok()?;
    let start = watch.now();
    check(watch, hasher, &proof, &elements, &root);
    watch.note(tree, "check of 50 scattered", TIMES, start);
    Some(())
}

// The first of some leaves, ascending, each once.
fn first_ascending<F: Family>(alloc: Global, leaves: &[u64]) -> Option<Vec<Location<F>>> {
    let mut locations = Vec::new(alloc);
    for leaf in leaves.iter().take(TOGETHER) {
        locations.push(Location::new(*leaf)).ok()?;
    }
    locations.sort_unstable();
    locations.dedup();
    Some(locations)
}

// The elements at the locations, each with its location.
fn located<'a, F: Family>(
    alloc: Global,
    elements: &[&'a [u8]],
    locations: &[Location<F>],
) -> Option<Vec<(&'a [u8], Location<F>)>> {
    let mut all: Vec<(&[u8], Location<F>)> = Vec::new(alloc);
    for location in locations {
        let element = elements.get(location.as_u64() as usize)?;
        if all.push((*element, *location)).is_err() {
            return None;
        }
    }
    Some(all)
}

// The positions that the proof of these leaves reads, many times.
fn find_positions<F: Family, C: CpuClock>(
    alloc: Global,
    watch: &mut Stopwatch<C>,
    leaves: Location<F>,
    locations: &[Location<F>],
) {
    for _ in 0..TIMES {
        match multi_proof_positions(alloc, leaves, locations) {
            Ok(positions) => watch.keep(&positions.len().to_be_bytes()),
            Err(_) => watch.is_whole = false,
        }
    }
}

// The check of the proof of these leaves, many times.
fn check<F: Family, H: Hasher<F>, C: CpuClock>(
    watch: &mut Stopwatch<C>,
    hasher: &H,
    proof: &Proof<F, H::Digest>,
    elements: &[(&[u8], Location<F>)],
    root: &H::Digest,
) {
    for _ in 0..TIMES {
        let checked = proof.verify_multi_inclusion(hasher, elements, root);
        watch.is_whole &= matches!(checked, Ok(true));
    }
}
