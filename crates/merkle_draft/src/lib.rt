//! Batches being merkleized: the records of batches, the nodes that follow from a batch's leaves, and
//! the nodes that a structure holds, to which records are applied.
//!
//! A [`Draft`](draft::Draft) reads nodes from the records that it keeps, the newest first, and then
//! from a [`Base`](base::Base).
#![tactic(auto)]

mod append;
pub mod base;
mod compute;
pub mod draft;
pub mod held_nodes;
mod levels;
pub mod node_error;
pub mod overwrites;
mod plan;
pub mod record;
pub mod replay;
