//! The program `merkle_bench`: how long the calls take.
//!
//! Its arguments are the number of leaves and the number of rounds, of each of which the least time counts; with a third one,
//! which says how many of the last leaves are proved, it measures audits and what they stand beside. It writes a table to
//! standard error, in nanoseconds of thread time a unit, and one fixed line to standard output.
#![tactic(auto)]

mod audits;
mod codec;
mod hashers;
mod nodes;
mod proofs;
mod scattered;
mod stopwatch;
mod trees;
mod workload;

use crate::audits::{Audited, measure_audits};
use crate::hashers::Hashers;
use crate::stopwatch::Stopwatch;
use crate::trees::measure;
use crate::workload::Workload;
use merkle_core::digest::{Sha256Plain, Xor8};
use merkle_core::hasher::Standard;
use merkle_core::{mmb, mmr};
use std::alloc::Global;
use std::env;
use std::process::ExitCode;
use std::rt::Runtime;
use std::time::CpuClock;

const USAGE: &str = "usage: merkle_bench LEAVES ROUNDS [PROVED]";

const FAILURE: &str =
    "merkle_bench: no clock, no memory, no leaves or too many, or a call that is refused";

/// What the arguments ask for.
#[derive(Clone, Copy)]
struct Request {
    leaves: u64,
    rounds: u64,
    proved: Option<u64>,
}

// The request that the arguments spell.
fn read_arguments(rt: &impl Runtime) -> Option<Request> {
    let mut words = env::args(rt).ok()?;
    let _program = words.next();
    let leaves = words.next()?.parse().ok()?;
    let rounds = words.next()?.parse().ok()?;
    let proved = match words.next() {
        Some(word) => Some(word.parse().ok()?),
        None => None,
    };
    Some(Request {
        leaves,
        rounds,
        proved,
    })
}

// Measures both families at both hashes, in as many rounds as the workload has.
fn measure_all<C: CpuClock>(
    alloc: Global,
    watch: &mut Stopwatch<C>,
    workload: &Workload,
) -> Option<()> {
    let sha256 = Hashers::<Standard<Sha256Plain>>::standard();
    let xor8 = Hashers::<Standard<Xor8>>::standard();
    for _ in 0..workload.rounds {
        measure::<mmr::Family, _, C>(alloc, watch, "mmr sha256", &sha256, workload)?;
        measure::<mmb::Family, _, C>(alloc, watch, "mmb sha256", &sha256, workload)?;
        measure::<mmr::Family, _, C>(alloc, watch, "mmr xor8", &xor8, workload)?;
        measure::<mmb::Family, _, C>(alloc, watch, "mmb xor8", &xor8, workload)?;
    }
    Some(())
}

// Measures what is asked for.
fn measure_request<C: CpuClock>(
    alloc: Global,
    watch: &mut Stopwatch<C>,
    request: &Request,
) -> Option<()> {
    match request.proved {
        Some(proved) => {
            let audited = Audited {
                leaves: request.leaves,
                proved,
                rounds: request.rounds,
            };
            measure_audits(alloc, watch, &audited)
        }
        None => {
            let workload = Workload::new(alloc, request.leaves, request.rounds)?;
            measure_all(alloc, watch, &workload)
        }
    }
}

fn main(rt: HostRuntime) -> ExitCode {
    let Some(request) = read_arguments(&rt) else {
        let _ = rt.eprintln(USAGE);
        return ExitCode::FAILURE;
    };
    let mut watch = Stopwatch::new(rt.alloc(), &rt);
    let measured = measure_request(rt.alloc(), &mut watch, &request);
    if measured.is_none() || !watch.is_whole {
        let _ = rt.eprintln(FAILURE);
        return ExitCode::FAILURE;
    }
    if rt.eprintln(&watch).is_err() || rt.println("measured").is_err() {
        return ExitCode::FAILURE;
    }
    ExitCode::SUCCESS
}
