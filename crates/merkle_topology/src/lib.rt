//! The two families, with closed formulas for their positions and sizes.
//!
//! Their merge rules and the theory of their forests are in `merkle_forest_theory`.
#![tactic(auto)]

pub mod mmb;
pub mod mmr;
