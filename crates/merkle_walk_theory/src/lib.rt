//! What a walk over the nodes of a claim finds that compares what is hashed at each with what a list has there.
#![tactic(auto)]

pub mod laws;
