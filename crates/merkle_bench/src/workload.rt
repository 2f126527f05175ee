//! How much is measured, and on which elements.

use rand_core::{Rng, SeedableRng};
use rand_xoshiro::SplitMix64;
use std::alloc::Global;

/// The greatest number of leaves that is measured.
const MOST_LEAVES: u64 = 1 << 24;

/// The number of bytes of an element.
pub const ELEMENT_SIZE: usize = 32;

/// What is measured, and in how many rounds.
#[derive(Drop)]
pub struct Workload {
    /// The bytes of the elements, one after another, all elements different.
    pub elements: Vec<u8>,
    /// Up to 1,000 of the leaves, scattered, the same in each round.
    pub scattered: Vec<u64>,
    /// The number of rounds.
    pub rounds: u64,
}

impl Workload {
    /// Work over a number of leaves, at least 1, in a number of rounds. An element begins with the bytes of its number.
    pub fn new(alloc: Global, leaves: u64, rounds: u64) -> Option<Self> {
        if leaves == 0 || leaves > MOST_LEAVES {
            return None;
        }
        let mut elements = Vec::new(alloc);
        for number in 0..leaves {
            let mut element = [0u8; ELEMENT_SIZE];
            element[..8].copy_from_slice(&number.to_be_bytes());
            elements.extend_from_slice(&element).ok()?;
        }
        Some(Workload {
            elements,
            scattered: scattered(alloc, leaves)?,
            rounds,
        })
    }
}

// Up to 1,000 numbers of leaves.
fn scattered(alloc: Global, leaves: u64) -> Option<Vec<u64>> {
    let mut numbers = Vec::new(alloc);
    let mut generator = SplitMix64::seed_from_u64(0);
    for _ in 0..leaves.min(1000) {
        numbers.push(generator.next_u64() % leaves.max(1)).ok()?;
    }
    Some(numbers)
}
