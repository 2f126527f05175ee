//! The theory of batches: what structures that agree with a list of leaf digests hold, what a batch
//! records, and the effect of reading, stacking, forking, dropping and applying records.
//!
//! `specs/` has the definitions, which the contracts of `merkle_core` cite. The module [`laws`]
//! states their laws; `proofs/` has the proofs by subject.
#![tactic(auto)]

pub mod laws;
