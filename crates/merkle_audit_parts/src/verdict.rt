//! What audits find.

use merkle_core::digest::Digest;
use merkle_walks::place::{Argument, Place};

/// What an audit of an input of a check against a list finds.
#[derive(Debug, Drop)]
pub enum Verdict<F, D: Digest> {
    /// The check says no.
    Rejected,
    /// The input is the honest one of the list.
    Honest,
    /// The check accepts the input, which is not honest: the first collision with the list.
    Collision {
        /// Where the two are hashed.
        place: Place<F>,
        /// What the check hashed.
        claimed: Argument<D>,
        /// What is hashed for the list.
        listed: Argument<D>,
    },
}

/// What an audit of a batch that was recorded at a list finds.
#[derive(Debug, Drop)]
pub enum ApplyVerdict<F, D: Digest> {
    /// The lists differ in length or in the digest of a peak, so the batch is refused.
    Refused,
    /// The lists are equal.
    Same,
    /// The lists differ, but not in a peak: the first collision, which is at a node.
    Collision {
        /// Where the two are hashed.
        place: Place<F>,
        /// What is hashed for the list of the batch.
        claimed: Argument<D>,
        /// What is hashed for the list of the structure.
        listed: Argument<D>,
    },
}

/// What an audit of two inputs of range checks against one root finds.
#[derive(Debug, Drop)]
pub enum PairVerdict<F, D: Digest> {
    /// One of the two checks says no.
    Rejected,
    /// Both say yes and hash no inputs that collide. So the proofs have one leaf count and one
    /// inactive count, and the inputs have one leaf digest at each location that both prove.
    Consistent,
    /// Both say yes: the first collision of what they hash.
    Collision {
        /// Where the two are hashed.
        place: Place<F>,
        /// What the first check hashed.
        first: Argument<D>,
        /// What the second check hashed.
        second: Argument<D>,
    },
}
