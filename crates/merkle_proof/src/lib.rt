//! Proofs that elements are leaves of the list behind a root: their plans, their generation from
//! nodes, and their verification.
#![tactic(auto)]

pub mod element_plan;
mod leaves;
pub mod multi;
mod multi_checks;
pub mod proof;
pub mod range_plan;
mod reading;

pub use merkle_hasher::{hasher, read};
pub use merkle_leaves::path;
