//! Laws of what checks hash, and of the collisions that are handed out. This crate has no code.
//!
//! `specs/` has the definitions that the contracts of audits use, and worked rows of those of
//! `merkle_root_theory` and `merkle_claim_theory`. The module [`laws`] states the laws.
#![tactic(auto)]

pub mod laws;
