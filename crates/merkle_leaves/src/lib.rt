//! The hasher over a plain hash function, the digests of many leaves, and paths from nodes down to leaves.
#![tactic(auto)]

pub mod leaves;
mod order;
pub mod path;
pub mod queue;
pub mod standard;
