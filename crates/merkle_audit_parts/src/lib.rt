//! What audits are made of: verdicts, and what is hashed for a list and for accepted inputs of the checks of ranges, of scattered leaves and of
//! ranges with pins.
#![tactic(auto)]

pub mod claim;
pub mod list;
pub mod multi_claim;
pub mod pin_nodes;
pub mod pinned_claim;
pub mod range;
pub mod verdict;
