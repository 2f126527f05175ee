//! What a range check with pins hashes, in the forms that an audit needs.
#![tactic(auto)]

pub mod laws;
