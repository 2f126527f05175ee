//! Scattered leaves: the positions of the nodes that a proof of them reads, the nodes above them, the digests that are computed of
//! these, and those that a proof supplies.
#![tactic(auto)]

mod checked_node;
pub mod confirm;
pub mod multi;
pub mod positions;
pub mod supplied;
