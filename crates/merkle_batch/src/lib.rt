//! Speculative batches over a structure: the leaves that they add and update, and the nodes that
//! follow.
//!
//! A batch is forked from a [`Base`](batch::Base) or from another batch, takes leaves, and is
//! merkleized.
#![tactic(auto)]

mod appended;
pub mod batch;
mod batch_proofs;
pub mod leaf_digests;
mod merkleized;
