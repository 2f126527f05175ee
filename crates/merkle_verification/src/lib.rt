//! Proofs over any reader of nodes, and stores that prove parts of a proved range.
#![tactic(auto)]

pub mod laws;
mod multi_reads;
mod pair_table;
pub mod readers;
pub mod roots;
pub mod store;
mod store_reads;
pub mod verification;
