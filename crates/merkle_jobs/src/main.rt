//! The program `merkle_jobs`: jobs that users wait for, by the public calls, on inputs that it makes itself.
//!
//! Its arguments are the name of a job or `all`, a number of leaves, and a seed for the inputs. It writes one line to standard
//! output: a digest of all results, which is the same at each run. It measures no time.
#![tactic(auto)]

// The value of a result; without one, the job ends. This is no `?`, since that passes the error to `From::from`, and the check
// has no rule for a call that takes an `Error` by value.
macro_rules! granted {
    ($result:expr) => {
        match $result {
            Ok(value) => value,
            Err(_) => return Err(Halt::Refused),
        }
    };
}

mod blocks;
mod catch_up;
mod client;
mod input;
mod journal;
mod script;
mod submissions;
mod tally;

use crate::input::Source;
use crate::tally::{Halt, Tally};
use merkle_core::{mmb, mmr};
use std::alloc::{Allocator, Global};
use std::env;
use std::env::Args;
use std::process::ExitCode;
use std::rt::Runtime;

const USAGE: &str = "usage: merkle_jobs JOB LEAVES SEED";

/// The greatest number of leaves of a job.
const MOST_LEAVES: u64 = 1 << 24;

/// A job, or all of them.
#[derive(Clone, Copy, PartialEq, Eq)]
enum Job {
    Journal,
    Blocks,
    Submissions,
    Client,
    CatchUp,
    Script,
    All,
}

impl Job {
    fn named(name: &str) -> Option<Job> {
        match name {
            "journal" => Some(Job::Journal),
            "blocks" => Some(Job::Blocks),
            "submissions" => Some(Job::Submissions),
            "client" => Some(Job::Client),
            "catch_up" => Some(Job::CatchUp),
            "script" => Some(Job::Script),
            "all" => Some(Job::All),
            _ => None,
        }
    }

    fn covers(self, other: Job) -> bool {
        self == other || self == Job::All
    }
}

/// What the arguments ask for.
#[derive(Clone, Copy)]
struct Request {
    job: Job,
    leaves: u64,
    seed: u64,
}

// The number that the next word spells.
fn read_number<A: Allocator>(words: &mut Args<A>) -> Option<u64> {
    words.next()?.parse().ok()
}

// The job that the next word names.
fn read_job<A: Allocator>(words: &mut Args<A>) -> Option<Job> {
    let name = words.next()?;
    Job::named(name.as_str())
}

fn read_request(rt: &impl Runtime) -> Option<Request> {
    let Ok(mut words) = env::args(rt) else {
        return None;
    };
    let _program = words.next();
    let job = read_job(&mut words)?;
    let leaves = read_number(&mut words)?;
    let seed = read_number(&mut words)?;
    if leaves == 0 || leaves > MOST_LEAVES {
        return None;
    }
    Some(Request { job, leaves, seed })
}

// The jobs that change structures, for each family.
fn write_jobs(alloc: Global, request: Request, tally: &mut Tally) -> Result<(), Halt> {
    let mut source = Source::new(alloc, request.seed)?;
    if request.job.covers(Job::Journal) {
        journal::run::<mmr::Family>(alloc, &mut source, request.leaves, tally)?;
        journal::run::<mmb::Family>(alloc, &mut source, request.leaves, tally)?;
    }
    if request.job.covers(Job::Blocks) {
        blocks::run::<mmr::Family>(alloc, &mut source, request.leaves, tally)?;
        blocks::run::<mmb::Family>(alloc, &mut source, request.leaves, tally)?;
    }
    if request.job.covers(Job::Submissions) {
        submissions::run::<mmr::Family>(alloc, &mut source, request.leaves, tally)?;
        submissions::run::<mmb::Family>(alloc, &mut source, request.leaves, tally)?;
    }
    Ok(())
}

// The jobs that prove and check, for each family, and the program's lines.
fn read_jobs(alloc: Global, request: Request, tally: &mut Tally) -> Result<(), Halt> {
    let mut source = Source::new(alloc, request.seed)?;
    if request.job.covers(Job::Client) {
        client::run::<mmr::Family>(alloc, &mut source, request.leaves, tally)?;
        client::run::<mmb::Family>(alloc, &mut source, request.leaves, tally)?;
    }
    if request.job.covers(Job::CatchUp) {
        catch_up::run::<mmr::Family>(alloc, &mut source, request.leaves, tally)?;
        catch_up::run::<mmb::Family>(alloc, &mut source, request.leaves, tally)?;
    }
    if request.job.covers(Job::Script) {
        script::run_script(alloc, &mut source, request.leaves, tally)?;
    }
    Ok(())
}

fn work(alloc: Global, request: Request) -> Result<Tally, Halt> {
    let mut tally = Tally::new();
    write_jobs(alloc, request, &mut tally)?;
    read_jobs(alloc, request, &mut tally)?;
    Ok(tally)
}

fn main(rt: HostRuntime) -> ExitCode {
    let Some(request) = read_request(&rt) else {
        let _ = rt.eprintln(USAGE);
        return ExitCode::FAILURE;
    };
    let written = match work(rt.alloc(), request) {
        Ok(tally) => rt.println(tally),
        Err(halt) => {
            let _ = rt.eprintln(halt);
            return ExitCode::FAILURE;
        }
    };
    if written.is_err() {
        return ExitCode::FAILURE;
    }
    ExitCode::SUCCESS
}
