//! Generating proofs over any reader of nodes, and stores that prove parts of a proved range.

pub use crate::readers::{historical_range_proof, multi_proof, range_proof};
pub use crate::roots::historical_root;
pub use crate::store::ProofStore;
