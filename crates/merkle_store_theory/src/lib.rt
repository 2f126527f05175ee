//! The theory of stores: what is kept of one accepted range proof, and the proofs that it provides
//! for parts of that range.
//!
//! `specs/` has the definitions: what a store holds, the digests that it returns for a range, and
//! the position that it reports as pruned if it returns none. The module [`laws`] states their
//! laws; `proofs/` has the proofs by subject.
#![tactic(auto)]

pub mod laws;
