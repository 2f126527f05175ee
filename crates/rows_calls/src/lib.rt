//! Calls of the program `rows` about what a line gives: positions, locations and sizes of a family, plans of proofs, checks of
//! proofs and stores that are made of them, proofs over lists of nodes, and bytes and digests alone.
//!
//! Beside them stands what the other calls share: the families, baggings and hashers that lines are about, what the lines so far
//! have made in each, words as digests, locations and proofs, values as text, refusals, and the changes of the calls that count
//! proofs.
#![tactic(auto)]

pub mod calls;
pub mod changes;
pub mod checks;
pub mod choices;
mod codec;
mod digests;
mod families;
mod names;
mod plans;
pub mod proofs;
pub mod readers;
pub mod refusal;
pub mod values;
pub mod world;
pub mod writing;

/// No structure has more peaks.
pub const MOST_PEAKS: usize = 64;
