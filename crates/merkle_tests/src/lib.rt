//! Tests that cross crates, of what the rows of the program `rows` don't show.
//!
//! Generic code is proved from its bounds alone. Here it also runs at hashers of `merkle_fixtures`,
//! which those crates don't know.
#![tactic(auto)]

#[cfg(test)]
mod tests;
