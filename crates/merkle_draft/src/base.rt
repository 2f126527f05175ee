//! What batches are forked from.
ghost use Rattle.std.specs.Prelude.{◌≡◌, ◌≤◌, ℕ, length, IfOk};
ghost use Rattle.merkle_base.specs.Forest.{size};
ghost use Rattle.merkle_base.specs.Places.{peaks_of};
ghost use Rattle.merkle_batch_theory.specs.Contents.{Contents, held_peaks};

use merkle_base::family::Family;
use merkle_base::location::Location;
use merkle_base::position::Position;
use merkle_digest::digest::Digest;
use std::alloc::AllocError;

/// A structure that batches are forked from, and that they read nodes of when they are merkleized.
///
/// Contracts model it as its pruning boundary, its size in nodes, the nodes that it holds, and its
/// leaf count.
pub trait Base<F: Family> {
    /// The digest type of the nodes.
    type Digest: Digest;

    ghost contents: { Self → Contents Self.Digest };

    ghost leaves: { Self → ℕ };

    /// Returns the size in nodes, including nodes that are not held.
    fn size(&self) -> Position<F>
        ensures { result ≡ (contents self.now).size };

    /// Returns the leaf count, including leaves that were pruned.
    fn leaves(&self) -> Location<F>
        ensures count { result ≡ leaves self.now }
        ensures sized { size F.rule result ≡ (contents self.now).size }
        ensures bounded { result ≤ F.MAX_LEAVES };

    /// Returns the location that the structure was pruned to; the leaves before it were dropped.
    fn pruning_boundary(&self) -> Location<F>
        ensures { result ≡ (contents self.now).boundary };

    /// Returns the digest of the node at `position`, or `None` if it is not held.
    fn get_node(&self, position: Position<F>) -> Option<Self::Digest>
        ensures { result ≡ (contents self.now).node position };

    /// Returns the digests of the peaks, oldest first.
    ///
    /// # Errors
    ///
    /// - `AllocError` if a memory request is refused
    fn peak_digests(&self) -> Result<Vec<Self::Digest>, AllocError>
        ensures held { IfOk result (λ v. v.items ≡ held_peaks F.rule (leaves self.now) (contents self.now)) }

        // There are as many as the forest has peaks.
        ensures many { IfOk result (λ v. length v.items ≡ length (peaks_of F.rule (leaves self.now))) };
}
