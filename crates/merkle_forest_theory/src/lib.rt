//! The merge rules of the two families, and the theory of the forests that they grow.
//!
//! `specs/` has the rules and the definitions of the closed formulas. The module [`laws`] states
//! the laws of their forests; `proofs/` has the proofs by subject.
#![tactic(auto)]

pub mod laws;
