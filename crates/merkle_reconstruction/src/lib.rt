//! The digest of a node from those of the leaves in a range and of the maximal nodes outside it.
#![tactic(auto)]

mod below;
pub mod collector;
pub mod inside;
pub mod known;
pub mod walk;
