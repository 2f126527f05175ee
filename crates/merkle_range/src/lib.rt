//! Checks of ranges of leaves against a root, over the parts of their proofs.
#![tactic(auto)]

pub mod checks;
pub mod extraction;
pub mod groups;
pub mod layout;
pub mod pins;
