//! The first damaged node of a structure.
ghost use Rattle.std.specs.Prelude.{◌≡◌, ◌≤◌, ℕ, length, IfNone, IfSome};
ghost use Rattle.merkle_base.specs.Places.{peaks_of};
ghost use Rattle.merkle_batch_theory.specs.MemModel.{contents};
ghost use Rattle.merkle_restore_theory.specs.Damage.{IsFirstDamaged, IsWhole, merged_from};
ghost use Rattle.merkle_restore_theory.specs.HeldRoot.{AgreesByRoot};

use crate::mem::Mem;
use merkle_base::family::{Family, Work};
use merkle_base::position::Position;
use merkle_digest::digest::Digest;
use merkle_hasher::hasher::Hasher;
use merkle_restore::damage::{first_damaged, first_damaged_counted};

impl<F: Family, D: Digest> Mem<F, D> {
    /// Returns the position of the first damaged node: the least position of a parent node that is held
    /// with both its children and whose digest is not that of theirs; `None` if there is none, so that
    /// the structure is whole.
    ///
    /// Of two damaged nodes that of the lesser position is returned. Leaves and pinned nodes are never
    /// damaged, since nothing that is held says what their digests are. A whole structure agrees with
    /// every list that has its root, unless two inputs of the hasher collide.
    ///
    /// Each parent node from the position of the pruning boundary on is hashed once, four at a time, up
    /// to the first damaged one. For the four nodes memory is requested; if that is refused, they are
    /// hashed one by one.
    pub fn first_damaged<H: Hasher<F, Digest = D>>(&self, hasher: &H) -> Option<Position<F>>
        ensures damaged { let n = self.now.leaves in
            IfSome result (λ p. IsFirstDamaged (H.hashing hasher.now) F.rule n (contents self.now).node p) }
        ensures whole { let n = self.now.leaves in
            IfNone result (IsWhole (H.hashing hasher.now) F.rule n (contents self.now).node) }

        // Each list with its root, for any inactive count, is a list that it agrees with, or what is
        // hashed collides.
        ensures agrees { let n = self.now.leaves in IfNone result ((k : ℕ) → k ≤ length (peaks_of F.rule n)
            → AgreesByRoot (H.scheme hasher.now) (contents self.now) n k) }
    {
        first_damaged(self.held.allocator(), self, hasher)
    }

    /// Returns the position of the first damaged node as by [`first_damaged`](Mem::first_damaged), and
    /// sets the number of digests in `work`: to that of the parent nodes from the position of the pruning
    /// boundary on if there is none, else to at most that.
    pub fn first_damaged_counted<H: Hasher<F, Digest = D>>(
        &self,
        hasher: &H,
        work: &mut Work,
    ) -> Option<Position<F>>
        ensures damaged { let n = self.now.leaves in
            IfSome result (λ p. IsFirstDamaged (H.hashing hasher.now) F.rule n (contents self.now).node p) }
        ensures whole { let n = self.now.leaves in
            IfNone result (IsWhole (H.hashing hasher.now) F.rule n (contents self.now).node) }
        ensures agrees { let n = self.now.leaves in IfNone result ((k : ℕ) → k ≤ length (peaks_of F.rule n)
            → AgreesByRoot (H.scheme hasher.now) (contents self.now) n k) }
        ensures work { IfNone result (work.new.node_digests ≡ merged_from F.rule self.now.boundary self.now.leaves) }
        ensures at_most { work.new.node_digests ≤ merged_from F.rule self.now.boundary self.now.leaves }
        ensures only { work.new.probes ≡ work.old.probes }
    {
        first_damaged_counted(self.held.allocator(), self, hasher, work)
    }
}
