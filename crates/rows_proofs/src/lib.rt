//! Calls of the program `rows` that make proofs of structures and batches, and by stores; and those that prove leaves, ranges and
//! choices of leaves, one by one and all of them, and count which proofs are accepted, and refused with any one part changed.
#![tactic(auto)]

mod bytes;
pub mod calls;
mod claims;
mod every;
mod parts;
mod pinned;
mod proofs;
mod ranges;
mod readers;
mod scattered;
mod spans;
mod stores;
mod subsets;
