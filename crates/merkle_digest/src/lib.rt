//! Digests, and the plain hash functions that compute them.
#![tactic(auto)]

pub mod digest;
