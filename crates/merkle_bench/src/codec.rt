//! Proofs as bytes, measured at one hash.

use crate::proofs::Case;
use crate::stopwatch::Stopwatch;
use merkle_core::codec::{Read, Write};
use merkle_core::digest::Digest;
use merkle_core::family::Family;
use merkle_core::proof::{MAX_PROOF_DIGESTS_PER_ELEMENT, Proof};
use std::alloc::Global;
use std::time::CpuClock;

/// Writes these proofs of one leaf, and reads them back.
pub fn measure_codec<F: Family, D: Digest, C: CpuClock>(
    alloc: Global,
    watch: &mut Stopwatch<C>,
    tree: &'static str,
    cases: &[Case<F, D>],
) {
    let units = cases.len() as u64;
    let mut out = Vec::new(alloc);
    let start = watch.now();
    write_each(watch, cases, &mut out, false);
    watch.note(tree, "write of a proof of one", units, start);
    out.clear();
    write_each(watch, cases, &mut out, true);
    let start = watch.now();
    read_each::<F, D, C>(alloc, watch, &out, units);
    watch.note(tree, "read of a proof of one", units, start);
}

// Writes each proof: after the one before, or else in its place.
fn write_each<F: Family, D: Digest, C: CpuClock>(
    watch: &mut Stopwatch<C>,
    cases: &[Case<F, D>],
    out: &mut Vec<u8>,
    are_kept: bool,
) {
    for case in cases {
        if !are_kept {
            out.clear();
        }
        watch.is_whole &= case.proof.write(out).is_ok();
        watch.keep(&out.len().to_be_bytes());
    }
}

// Reads the `count` proofs that the bytes are, and drops them.
fn read_each<F: Family, D: Digest, C: CpuClock>(
    alloc: Global,
    watch: &mut Stopwatch<C>,
    bytes: &[u8],
    count: u64,
) {
    let mut rest = bytes;
    for _ in 0..count {
        let read: Result<Proof<F, D>, _> = Proof::read(
            alloc,
            &mut rest,
            &MAX_PROOF_DIGESTS_PER_ELEMENT,
        );
        match read {
            Ok(proof) => watch.keep(&proof.digests.len().to_be_bytes()),
            Err(_) => watch.is_whole = false,
        }
    }
}
