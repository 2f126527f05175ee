//! SHA-256 as a plain hash function, and its digests.
#![tactic(auto)]

pub mod sha256;
