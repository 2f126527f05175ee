//! Walks that compare: what is hashed at places, and the search for the first difference between what is hashed for a claim and what is
//! hashed for a list, node by node.
#![tactic(auto)]

pub mod collision;
pub mod nodes;
pub mod place;
pub mod range;
pub mod scattered;
pub mod top;
