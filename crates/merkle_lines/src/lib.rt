//! The lines of the program `merkle`: the answers to commands, and the loop that reads and writes.
#![tactic(auto)]

mod answer;
mod auditing;
mod checking;
pub mod laws;
pub mod run;
mod session;
mod structure;

pub use merkle_commands::hex_words;
