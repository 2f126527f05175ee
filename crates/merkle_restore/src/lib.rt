//! Whether the digests that a structure holds follow from one another.
//!
//! [`first_damaged`](damage::first_damaged) hashes the parent nodes that a [`Base`](merkle_draft::base::Base)
//! holds with both their children, and compares.
#![tactic(auto)]

pub mod damage;
