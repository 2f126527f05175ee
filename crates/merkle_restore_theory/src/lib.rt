//! Whether the digests that a structure holds follow from one another, and what follows if they do. This
//! crate has no code.
//!
//! `specs/` has the definitions, which the contracts of `merkle_restore` and `merkle_core` cite. The
//! module [`laws`] states their laws.
#![tactic(auto)]

pub mod laws;
