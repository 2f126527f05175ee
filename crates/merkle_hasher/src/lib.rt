//! Hashers, the digests of many nodes, read access to nodes, nodes with the leaves below them, and the peaks among them.
#![tactic(auto)]

pub mod hasher;
pub mod nodes;
pub mod peaks;
pub mod read;
mod root;
pub mod subtree;
