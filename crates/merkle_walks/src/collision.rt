//! What a search finds.

use crate::place::{Argument, Place};
use merkle_digest::digest::Digest;

/// Two different arguments that are hashed at one place to one digest.
#[derive(Drop)]
pub struct Collision<F, D: Digest> {
    pub place: Place<F>,
    pub claimed: Argument<D>,
    pub listed: Argument<D>,
}
