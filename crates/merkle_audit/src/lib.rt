//! Audits: what a check's answer rests on, as evidence.
//!
//! A check of a proof accepts the honest input of a list, and anything else only where it hashes an
//! input that collides with one of the list: two different arguments at one place with one digest.
//! An audit has the list at hand, and hands out the first such collision.
#![tactic(auto)]

mod apply;
mod multi;
mod pair;
mod pins;
mod range;

pub use crate::apply::audit_apply;
pub use crate::multi::{audit_multi, audit_multi_leaf_digests};
pub use crate::pair::{audit_pair, audit_pair_leaf_digests};
pub use crate::pins::{audit_pins, audit_pins_leaf_digests};
pub use crate::range::{audit_range, audit_range_leaf_digests};
pub use merkle_audit_parts::verdict::{ApplyVerdict, PairVerdict, Verdict};
pub use merkle_walks::place::{Argument, Place};
