//! The structure of a root, and claims about a part of its list: the definitions that proofs and
//! their checks build on. This crate has no code.
//!
//! `specs/` has the definitions: the expression whose value a root is, the nodes outside a claim,
//! the layout of the digests of a proof over them, when a check accepts, and what a collision is.
//! The laws that follow are in `merkle_claim_theory`.
#![tactic(auto)]
