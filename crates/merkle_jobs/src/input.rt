//! Made inputs: numbers and operations that a seed determines.

use crate::tally::Halt;
use rand_core::{Rng, SeedableRng};
use rand_xoshiro::SplitMix64;
use std::alloc::{AllocError, Global};

/// How many bytes the operations are cut from.
const POOL: usize = 1 << 16;

/// The lengths of which each eighth operation has one: the empty one, and those at the borders of the blocks of SHA-256.
const BORDERS: [usize; 8] = [0, 47, 48, 55, 111, 112, 175, 176];

/// Numbers and bytes that a seed determines.
#[derive(Drop)]
pub struct Source {
    generator: SplitMix64,
    pool: Vec<u8>,
    made: u64,
}

impl Source {
    /// The source of a seed.
    pub fn new(alloc: Global, seed: u64) -> Result<Self, AllocError> {
        let mut generator = SplitMix64::seed_from_u64(seed);
        let mut pool = Vec::new(alloc);
        for _ in 0..POOL / 8 {
            pool.extend_from_slice(&generator.next_u64().to_be_bytes())?;
        }
        Ok(Source {
            generator,
            pool,
            made: 0,
        })
    }

    /// The next number, below a bound; 0 where the bound is 0.
    pub fn below(&mut self, bound: u64) -> u64 {
        self.generator.next_u64() % bound.max(1)
    }

    // The length of the next operation: 40 to 250 bytes, or one at a border.
    fn next_length(&mut self) -> usize {
        let number = self.below(8 * 211);
        let border = BORDERS[(self.made % 8) as usize];
        if number % 8 == 0 {
            return border;
        }
        40 + (number / 8) as usize
    }

    /// Appends the bytes of the next operation. Those of eight bytes or more differ.
    pub fn append(&mut self, bytes: &mut Vec<u8>) -> Result<(), AllocError> {
        let length = self.next_length();
        let start = self.below(65000) as usize;
        self.made = self.made.wrapping_add(1);
        let Some(rest) = length.checked_sub(8) else {
            return Ok(());
        };
        bytes.extend_from_slice(&self.made.to_be_bytes())?;
        if let Some(part) = self.pool.get(start..start.saturating_add(rest)) {
            bytes.extend_from_slice(part)?;
        }
        Ok(())
    }

    /// The next operations, that many.
    pub fn operations(&mut self, alloc: Global, count: u64) -> Result<Operations, AllocError> {
        let mut operations = Operations {
            bytes: Vec::new(alloc),
            ends: Vec::new(alloc),
        };
        for _ in 0..count {
            self.append(&mut operations.bytes)?;
            operations.ends.push(operations.bytes.len())?;
        }
        Ok(operations)
    }
}

/// Operations of a journal, one after another.
#[derive(Drop)]
pub struct Operations {
    bytes: Vec<u8>,
    ends: Vec<usize>,
}

impl Operations {
    /// The number of operations.
    pub fn count(&self) -> u64 {
        self.ends.len() as u64
    }

    /// The bytes of an operation, by its index.
    pub fn get(&self, index: u64) -> Result<&[u8], Halt> {
        let index = index as usize;
        let start = match index.checked_sub(1) {
            Some(before) => self.end(before)?,
            None => 0,
        };
        let end = self.end(index)?;
        match self.bytes.get(start..end) {
            Some(bytes) => Ok(bytes),
            None => Err(Halt::Refused),
        }
    }

    // The end of an operation among all bytes.
    fn end(&self, index: usize) -> Result<usize, Halt> {
        match self.ends.get(index) {
            Some(end) => Ok(*end),
            None => Err(Halt::Refused),
        }
    }

    /// The bytes of the operations from one on, before another.
    pub fn views(&self, alloc: Global, start: u64, end: u64) -> Result<Vec<&[u8]>, Halt> {
        let mut views: Vec<&[u8]> = Vec::new(alloc);
        for index in start..end {
            if views.push(self.get(index)?).is_err() {
                return Err(Halt::OutOfMemory);
            }
        }
        Ok(views)
    }
}
