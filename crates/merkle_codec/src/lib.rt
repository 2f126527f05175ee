//! Encoding and decoding: numbers, digests, proofs and pending chunks as bytes.
#![tactic(auto)]

pub mod codec;
pub mod number;
pub mod pending;
pub mod proof;
