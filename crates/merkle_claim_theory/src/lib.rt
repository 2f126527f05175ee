//! Laws of claims and checks: the theory behind the checks of `merkle_proof`. This crate has no
//! code.
//!
//! `specs/` has the definitions, beside those of `merkle_root_theory`. The module [`laws`] states
//! their laws; `merkle_audit_theory` has more, with worked rows.
#![tactic(auto)]

pub mod laws;
