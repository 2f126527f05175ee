//! Positions and locations, families and errors: the vocabulary of every layer above.
//!
//! `specs/` has the definitions: the forest that a merge rule grows leaf by leaf, the digest of a
//! list of leaf digests at each node, and the root of a list. `proofs/` has the theory of forests,
//! which the module [`laws`] states.
#![tactic(auto)]

pub mod error;
pub mod family;
pub mod laws;
pub mod listed;
pub mod location;
pub mod number;
pub mod pins;
pub mod position;
pub mod room;
mod work;
