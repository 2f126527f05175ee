//! Merkle structures in memory, changed by speculative batches.
//!
//! A [`Mem`](mem::Mem) holds the nodes of a structure. A batch is forked from it, takes leaves, is
//! merkleized and is applied. The modules of the crates below are re-exported under their own
//! names.
#![tactic(auto)]

mod components;
mod config_codec;
mod damage;
pub mod digest;
pub mod family;
mod find;
pub mod hasher;
mod held_leaves;
pub mod laws;
pub mod mem;
mod mem_codec;
pub mod mmb;
pub mod mmr;
mod prune;
pub mod restore;

pub use merkle_base::{error, location, position};
pub use merkle_batch::batch;
pub use merkle_codec::codec;
pub use merkle_hasher::{nodes, read, subtree};
pub use merkle_leaves::{leaves, path};
pub use merkle_proof::{element_plan, proof, range_plan};
pub use merkle_verification::verification;

/// The value of a result; without one, the function returns what `From` makes of a reference to the error.
///
/// It stands for `?` after the calls that return an [`Error`](error::Error). `?` and `map_err` pass the error on by value, and
/// the check has no rule for that where the error holds a `&'static str`, as one variant of `Error` does. A caller writes
/// `impl From<&Error<F>>` for an error of its own. After other calls, and after its own functions if their error holds no
/// `Error`, `?` serves.
///
/// # Examples
///
/// ```
/// use merkle_core::digest::{Sha256Digest, Sha256Plain};
/// use merkle_core::error::Error;
/// use merkle_core::granted;
/// use merkle_core::mmr::{Family, Mmr, StandardHasher};
///
/// #[derive(Debug, Drop)]
/// struct Refused;
///
/// impl From<&Error<Family>> for Refused {
///     fn from(_: &Error<Family>) -> Self {
///         Refused
///     }
/// }
///
/// fn root_of(
///     log: &Mmr<Sha256Digest>,
///     hasher: &StandardHasher<Sha256Plain>,
/// ) -> Result<Sha256Digest, Refused> {
///     Ok(granted!(log.root(hasher, 0)))
/// }
/// ```
#[macro_export]
macro_rules! granted {
    ($result:expr) => {
        match $result {
            Ok(value) => value,
            Err(error) => return Err(std::convert::From::from(&error)),
        }
    };
}
